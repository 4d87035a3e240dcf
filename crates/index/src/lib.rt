// A table beside the reel: eight bytes for each object, its first block and the number of marks before it. A mount fills it, writes cut and extend
// it, and two look-ups find a file or a block in it by halving.
#![tactic(auto)]

mod cutting;
mod filling;
mod finding;
mod halving;

pub use cutting::{cut_at, put_place, put_places};
pub use filling::{count_objects, fill_table};
pub use finding::{find_block, find_file};
pub use halving::{halve, places};

// A place: two numbers of four bytes.
pub const PLACE: usize = 8;

// No count of places is more: it has four bytes.
pub const PLACES_LIMIT: usize = 4294967295;

// Where a write cuts the table: the first place that goes, and the marks before the object that it is then for.
#[derive(Clone, Copy, Default)]
pub struct Cut {
    pub place: usize,
    pub marks: u32,
}
