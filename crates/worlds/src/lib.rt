// The eight calls by their meaning: specs/Calls.antt has each as a function of the world. The code is in crate journal; here stand only the
// values that the calls take and hand back, and the checks that each makes first.
#![tactic(auto)]

mod checks;
mod rows;

pub use checks::{check, session_wrong};
use commands::Done;
pub use rows::{
    absent, coupler_check, coupler_of, no_transport, row_check, session_over, standing,
    transport_of,
};
use state::{Attention, Characteristics, Panel, Registers, Tape, Unit};

// The unit's state, the used places of the table, and the used journal and the mount's journal length, in bytes.
#[derive(Clone, Copy, Default)]
pub struct Session {
    pub unit: Unit,
    pub objects: usize,
    pub used: usize,
    pub journal: usize,
}

pub const JOURNAL_LIMIT: usize = 16777216;

// A unit's record in the row: its state, the mount's reel length in blocks, and the used places of its table. Memory's length is the coupler's.
#[derive(Clone, Copy, Default)]
pub struct Transport {
    pub tape: Tape,
    pub registers: Registers,
    pub panel: Panel,
    pub attention: Attention,
    pub characteristics: Characteristics,
    pub blocks: usize,
    pub objects: usize,
}

// What the transports share: the used journal, and the last mount's lengths of memory and journal, in bytes.
#[derive(Clone, Copy, Default)]
pub struct Coupler {
    pub used: usize,
    pub memory: usize,
    pub journal: usize,
}

// A transport with the length in bytes of the reel that it is lent.
#[derive(Clone, Copy)]
pub struct Seat {
    pub transport: Transport,
    pub reel: usize,
}

// What an advance that is not refused hands back. Every other call that is done is a step, or takes one back, and hands back the session alone.
#[derive(Clone, Copy)]
pub struct Stepped {
    pub done: Done,
    pub session: Session,
}
