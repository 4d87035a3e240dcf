// The calls of the library that a debugger links, which `ts11_c` exports: the journal's calls for C, C++ and Rust, with the state as a block of
// 128 bytes.
#![tactic(auto)]

mod calls;
mod finds;

pub use calls::{
    ts11_advance, ts11_host_store, ts11_mount, ts11_operate, ts11_read_register, ts11_step_back,
    ts11_write_tsdb, ts11_write_tssr,
};
pub use finds::{ts11_find_block, ts11_find_file};
pub use stateblock::STATE;
