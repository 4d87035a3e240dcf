// Why a call is refused. "Each returns its number and changes nothing."
ghost use Rattle.std.specs.Prelude.{◌≡◌};
ghost use Rattle.state.specs.Refusals.{refusal_number};

use tape::Damage;

#[derive(Clone, Copy)]
pub enum Refusal {
    // The state's own numbers, the used journal or a mounted length.
    State,
    // Memory's length.
    Memory,
    // The reel's length, or the end that is to be taken.
    Reel,
    // The journal's length.
    Journal,
    // A host store too long, or past the end of memory.
    Store,
    // A step back with no entry.
    Empty,
    // A block that mount or the command must read.
    BadBlock(Damage),
    // The newest entry's own numbers.
    Entry,
    // Free journal less than the entry.
    Room,
    // A table too small for the objects.
    Table,
    // A unit not present.
    Absent,
}

impl Refusal {
    // The paper's number.
    #[tactic(auto, unfolding(crate::specs::Refusals::refusal_number))]
    pub fn number(self) -> usize
        ensures { result ≡ refusal_number self }
    {
        match self {
            Refusal::State => 1,
            Refusal::Memory => 2,
            Refusal::Reel => 3,
            Refusal::Journal => 4,
            Refusal::Store => 5,
            Refusal::Empty => 6,
            Refusal::BadBlock(_) => 7,
            Refusal::Entry => 8,
            Refusal::Room => 9,
            Refusal::Table => 11,
            Refusal::Absent => 12,
        }
    }
}
