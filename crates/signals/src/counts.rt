// Three counters that the manuals keep apart, and so do we.
ghost use Rattle.std.specs.Prelude.{◌≡◌};
ghost use Rattle.signals.specs.Residuals.{residual_word};

#[derive(Clone, Copy)]
pub struct ByteCount(pub u16);

#[derive(Clone, Copy)]
pub struct RecordCount(pub u16);

#[derive(Clone, Copy)]
pub struct MarkCount(pub u16);

#[derive(Clone, Copy)]
pub enum Residual {
    Bytes(ByteCount),
    Records(RecordCount),
    Marks(MarkCount),
    Nothing,
}

// Only here do the three become a word.
impl From<Residual> for u16 {
    fn from(r: Residual) -> u16
        ensures { result ≡ residual_word r }
    {
        match r {
            Residual::Bytes(b) => b.0,
            Residual::Records(n) => n.0,
            Residual::Marks(m) => m.0,
            Residual::Nothing => 0,
        }
    }
}
