// What a journal entry keeps: the whole state before the step, and the bytes at the places that the step touches. It can be read from both
// ends: its length stands at its front, and its head at its end.
#![tactic(auto)]

mod bytes;
mod entering;
mod numbers;
mod restoring;

pub use bytes::{head_at, put_head};
pub use entering::{enter, enter_bare, enter_run, entry_length};
pub use numbers::{entry_of, flags_right, numbers_of, state_numbers, unit_in};
pub use restoring::{bring_entry_back, entry_fits, newest_entry};
use state::Unit;
use touched::Touched;

// Which transport took a step, its state before it with the used places of the table, and what the step touches. A host store's names none.
#[derive(Clone, Copy)]
pub struct Entry {
    pub unit: Unit,
    pub objects: usize,
    pub touched: Touched,
    pub transport: usize,
}

// "Document 002 allows units 0 to 3": a transport's number is below this, and an entry with this number names none.
// Kept: a number and no `Option`, since an entry's bytes may have any number, and the law `entry_back` gives back that very one.
pub const TRANSPORTS: usize = 4;

// The entry's length, at its front.
pub const FRONT: usize = 4;

// The state and the places, at its end: 31 numbers.
pub const HEAD: usize = 124;

// "Entry length is 128 + stored memory bytes + stored reel bytes", and eight for each place filled.
pub const BARE: usize = 128;
