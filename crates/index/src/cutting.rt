// Where a write cuts the table, and the places of the objects that it lays.
ghost use Rattle.std.specs.Prelude.{◌≡◌, ◌+◌, ◌*◌, ◌≤◌, length};
ghost use Rattle.std.proofs.lemmas.List.Edits.{sets};
ghost use Rattle.index.specs.Cutting.{cut_at, kind_at, marks_at};
ghost use Rattle.index.specs.Table.{place_bytes, place_length, places_row};

use crate::halving::halve;
use crate::{Cut, PLACE};
use lists::{number_at, put_number, word};
use tape::{Geometry, MARK_KIND};

// Block k's kind; the table may name a block that is not there.
// Kept: the word that stands there, here and in filling.rt, as `kind_at`, `blocks_at` and `marks_on` ask it; of a made-up table's block it may be any.
fn kind_at(reel: &[u8], k: usize) -> usize
    ensures { result ≡ kind_at reel.now k }
{
    if k < reel.len() / Geometry::BLOCK {
        return word(reel, Geometry::BLOCK * k);
    }
    0
}

// The marks before the object that place m is for.
fn marks_at(table: &[u8], reel: &[u8], m: usize) -> u32
    requires { place_length * m ≤ length table.now }
    ensures { result ≡ marks_at table.now reel.now m }
{
    if m == 0 {
        return 0;
    }
    let at = PLACE * (m - 1);
    let marks = number_at(table, at + 4);
    let kind = kind_at(reel, number_at(table, at) as usize);
    marks.wrapping_add(u32::from(kind == MARK_KIND))
}

// A write at block b, over a table of n places.
// Kept: n beside the table, here and in halving.rt: promised for a table that goes on behind its n places.
#[tactic(auto, unfolding(crate::specs::Cutting::cut_at))]
pub fn cut_at(table: &[u8], n: usize, reel: &[u8], b: usize) -> Cut
    requires { place_length * n ≤ length table.now }
    ensures { result ≡ cut_at table.now n reel.now b }
{
    let place = halve(table, 0, b, n);
    let marks = marks_at(table, reel, place);
    Cut { place, marks }
}

// Place m is for the object whose first block is b, with k marks before it.
pub fn put_place(table: &mut [u8], m: usize, b: u32, k: u32)
    requires { place_length * (m + 1) ≤ length table.old }
    ensures { table.new ≡ sets table.old (place_length * m) (place_bytes b k) }
{
    let at = PLACE * m;
    put_number(table, at, b);
    put_number(table, at + 4, k);
}

// The places of n objects in a row that a write lays from block b on, a block apart: one, or a gap's and the object's behind it.
pub fn put_places(table: &mut [u8], c: Cut, b: usize, n: usize)
    requires { (place_length * (c.place + n) ≤ length table.old) × (b + n ≤ 4294967295) }
    ensures { table.new ≡ sets table.old (place_length * c.place) (places_row b c.marks n) }
{
    for i in 0..n {
        put_place(table, c.place + i, (b + i) as u32, c.marks);
    }
}
