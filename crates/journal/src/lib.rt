// The calls that the debugger makes, in code: each with its refusals and its journal entry, and the step back. What they mean stands in
// crate worlds.
#![tactic(auto)]

mod calls;
mod finds;

pub use calls::{
    advance, host_store, mount, operate, read_register, step_back, write_tsdb, write_tssr,
};
pub use finds::{block_place, file_place};
