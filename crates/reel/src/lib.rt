// The reel layer's face: passing an object either way, the mount's sweep, moving a record's bytes, laying objects.
#![tactic(auto)]

mod copy;
mod image;
mod lay;
mod passing;
mod sweeping;

pub use copy::read_record;
pub use image::examine;
pub use lay::{lay_gap, lay_mark, lay_record};
pub use passing::pass;
pub use sweeping::sweep;
