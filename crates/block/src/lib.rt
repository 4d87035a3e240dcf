// One block of the reel: read as what it is, and laid.
#![tactic(auto)]

mod lay;
mod read;
mod sum;

pub use lay::lay_block;
pub use read::read_block;
