// The program's memory: it has no heap, so each buffer has the length that a script may need at most.
ghost use Rattle.std.specs.Prelude.{◌≡◌};
ghost use Rattle.desk.specs.Desks as desks;

#[derive(Drop)]
pub struct Buffers {
    pub memory: [u8; 262146],
    pub reel: [u8; 131072],
    pub table: [u8; 4096],
    pub journal: [u8; 1048576],
}

// The first n bytes, or all.
pub fn front(b: &[u8], n: usize) -> &[u8]
    ensures { result.now ≡ desks.front n b.now }
{
    &b[..n.min(b.len())]
}
