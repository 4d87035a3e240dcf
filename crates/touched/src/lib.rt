// What a step touches in memory, reel and table, as a value: the unit hands it to the journal before anything is stored, and the journal
// saves and brings back the bytes at these places without knowing what the step is.
#![tactic(auto)]

mod saving;

pub use saving::{bring_back, nothing, save, saved_length, touched_fits};

// The data's bytes at their places (SWB), the message's bytes, the reel's blocks, and the table's places that are filled.
#[derive(Clone, Copy, Default)]
pub struct Touched {
    pub data_at: usize,
    pub data_length: usize,
    pub swb: bool,
    pub message_at: usize,
    pub message_length: usize,
    pub reel_at: usize,
    pub reel_blocks: usize,
    pub place_at: usize,
    pub places: u32,
}
