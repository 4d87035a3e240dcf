// The unit's state by value, with methods that hand back the next state.
#![tactic(auto)]

mod act;
mod check;
mod refusal;
mod register;

pub use act::{Act, mounted};
pub use check::{MEMORY_LIMIT, blocks_right, buffer_wrong, memory_right, state_wrong, unit_check};
pub use refusal::Refusal;

// In blocks.
#[derive(Clone, Copy, Default)]
pub struct Tape {
    pub position: usize,
    pub end: usize,
}

#[derive(Clone, Copy, Default)]
pub struct Registers {
    pub pointer: usize,
    // Kept: a number, as TSSR shows it; a state that is handed in may say any, and `registers_wrong` refuses those past 6.
    pub class: usize,
    pub rmr: bool,
    pub nxm: bool,
    pub nba: bool,
    // A command waits, and the command buffer is the unit's, exactly while this is clear.
    pub ssr: bool,
}

#[derive(Clone, Copy, Default)]
pub struct Panel {
    pub online: bool,
    pub locked: bool,
    pub vck: bool,
}

// The message buffer's owner, and the attention that waits for the unit to own it.
#[derive(Clone, Copy, Default)]
pub struct Attention {
    pub unit_owns: bool,
    pub pending: bool,
    pub release_ie: bool,
}

// What Write Characteristics took.
#[derive(Clone, Copy, Default)]
pub struct Characteristics {
    pub address: u32,
    pub length: u32,
    pub eai: bool,
    pub ess: bool,
    pub enb: bool,
}

// The mount's lengths: bytes of memory, blocks of reel.
#[derive(Clone, Copy, Default, PartialEq, Eq)]
pub struct Lengths {
    pub memory: usize,
    pub blocks: usize,
}

#[derive(Clone, Copy, Default)]
pub struct Unit {
    pub tape: Tape,
    pub registers: Registers,
    pub panel: Panel,
    pub attention: Attention,
    pub characteristics: Characteristics,
    pub lengths: Lengths,
}
