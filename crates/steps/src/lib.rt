// A step entered in the journal and taken, or undone, and a mount's table: what stands behind the calls once their checks have passed.
#![tactic(auto)]

mod mounts;
mod shared;
mod steps;

pub use mounts::mount_table;
pub use shared::{store_step, undo_none};
pub use steps::{change, check_change, host_step, step, undo};
