// The commands that move the tape: how each ends, where the tape stands, what is moved and laid.
#![tactic(auto)]

mod parts;
mod reads;
mod spaces;
mod writes;

pub use parts::{Ending, Laid, Moved, ObjectKind, laid_blocks, moved_bytes, no_lay, no_move, rest};
pub use reads::{Buffer, read_one, reread_one};
pub use spaces::position;
pub use writes::{retry, write_at};
