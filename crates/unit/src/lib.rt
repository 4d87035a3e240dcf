// One TS11-compatible unit, as the journal sees it: mounting it, what is asked of it, what it is about to do and to touch, and doing that.
#![tactic(auto)]

mod asking;
mod mounting;
mod registers;

pub use advance::plan_advance;
pub use asking::{
    HOST_LIMIT, cut_for, fill_places, host_touched, objects_after, put_host, store_wrong,
    too_small, touched_by,
};
pub use mounting::{mount, mount_refusal};
pub use registers::{Register, register_word};
pub use storing::store;
