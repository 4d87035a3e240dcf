// A mount's table: the reel is whole, so the first block of each object says how many blocks it has.
// Kept: that the reel is whole up to e is asked by two functions here and one above, each of a reel and an e that a mount has just swept; a type of both would be made and taken apart there.
ghost use Rattle.std.specs.Prelude.{◌≡◌, ◌+◌, ◌*◌, ◌≤◌, length};
ghost use Rattle.std.proofs.lemmas.List.Edits.{sets};
ghost use Rattle.tape.specs.Afresh.{objects_in};
ghost use Rattle.tape.specs.Numbers.{block_bytes, capacity_limit};
ghost use Rattle.tape.specs.Objects.{Holds};
ghost use Rattle.index.specs.Table.{place_length, table_of};
ghost use Rattle.index.specs.Heads.{blocks_at, marks_on};

use crate::cutting::put_place;
use lists::word;
use tape::{Geometry, MARK_KIND, PIECE_KIND};

// The blocks of the object whose first block is p.
#[tactic(auto, unfolding(crate::specs::Heads::blocks_at))]
fn blocks_at(reel: &[u8], p: usize) -> usize
    requires { block_bytes * (p + 1) ≤ length reel.now }
    ensures { result ≡ blocks_at reel.now p }
{
    let at = Geometry::BLOCK * p;
    if word(reel, at) == PIECE_KIND {
        return tape::pieces(word(reel, at + 2));
    }
    1
}

// 1 if it is a mark.
#[tactic(auto, unfolding(crate::specs::Heads::marks_on))]
fn marks_on(reel: &[u8], p: usize) -> u32
    requires { block_bytes * (p + 1) ≤ length reel.now }
    ensures { result ≡ marks_on reel.now p }
{
    u32::from(word(reel, Geometry::BLOCK * p) == MARK_KIND)
}

// Kept: two walks by objects, each as long as its first block says; as a `for` over e each would need a way out in its middle, which `p < e` is.
// How many objects a whole reel has below e.
pub fn count_objects(reel: &[u8], e: usize) -> usize
    requires { Holds reel.now e (objects_in reel.now e) × (e ≤ capacity_limit) }
    ensures { result ≡ length (objects_in reel.now e) }
{
    let mut p: usize = 0;
    let mut n: usize = 0;
    while p < e {
        p += blocks_at(reel, p);
        n += 1;
    }
    n
}

// The table of a whole reel's objects below e.
pub fn fill_table(table: &mut [u8], reel: &[u8], e: usize)
    requires { Holds reel.now e (objects_in reel.now e) × (e ≤ capacity_limit) × (place_length * length (objects_in reel.now e) ≤ length table.old) }
    ensures { table.new ≡ sets table.old 0 (table_of (objects_in reel.now e)) }
{
    let mut p: usize = 0;
    let mut n: usize = 0;
    let mut marks: u32 = 0;
    while p < e {
        let beyond = marks + marks_on(reel, p);
        put_place(table, n, p as u32, marks);
        marks = beyond;
        p += blocks_at(reel, p);
        n += 1;
    }
}
