// The desk that the lines of a session script change, and what each line does to it and to the buffers, but for the calls.
#![tactic(auto)]

mod arranges;
mod builds;
mod desk;
mod tables;

pub use arranges::arrange;
pub use builds::build;
pub use desk::{Desk, fresh, handed, next_line, trim};
use results::Told;
pub use tables::tabled;

// What a line has printed.
#[derive(Clone, Copy)]
pub enum Said {
    Nothing,
    // The line itself.
    Itself,
    Result(Told),
}

// What a line came to that could be taken.
#[derive(Clone, Copy)]
pub struct Turn {
    pub desk: Desk,
    pub said: Said,
}
