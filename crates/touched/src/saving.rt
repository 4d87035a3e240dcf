// Saving the bytes that a step is about to store over, and bringing them back.
ghost use Rattle.std.specs.Prelude.{◌≡◌, ◌+◌, ◌≤◌, ◌%◌, leb, length};
ghost use Rattle.lists.specs.Places.{gathered, placed};
ghost use Rattle.touched.specs.Touches.{PlacesIn, Restored, TouchedIn, none, saved_bytes, saved_length, touched_fits};

use crate::Touched;
use index::PLACE;
use lists::{copy, gather, scatter};
use tape::Geometry;

// No byte.
pub fn nothing() -> Touched
    ensures { result ≡ none }
{
    Touched::default()
}

// How many bytes are saved, "data and message counted separately even if they overlap".
pub fn saved_length(t: Touched, memory: usize, reel: usize) -> usize
    requires { TouchedIn t memory reel }
    ensures { result ≡ saved_length t }
{
    t.data_length + t.message_length + Geometry::BLOCK * t.reel_blocks + PLACE * t.places as usize
}

// Does a run of n from a lie below a limit? The numbers may be made up, and their sum too large.
fn run_fits(a: usize, n: usize, limit: usize) -> bool
    ensures { result ≡ leb (a + n) limit }
{
    a.checked_add(n).is_some_and(|end| end <= limit)
}

// Do these places lie inside memory and reel, whose lengths in bytes these are?
pub fn touched_fits(t: Touched, memory: usize, reel: usize) -> bool
    ensures { result ≡ touched_fits t memory reel }
{
    let data = run_fits(t.data_at, t.data_length, memory);
    let message = run_fits(t.message_at, t.message_length, memory);
    let blocks = run_fits(t.reel_at, t.reel_blocks, reel / Geometry::BLOCK);
    data & (message & blocks)
}

// The data's bytes from address a on fill b. Most steps move none, and are spared the call: without the test a step back of 512 bytes takes 617 instructions, not 588.
fn save_data(b: &mut [u8], mem: &[u8], a: usize, swb: bool)
    requires { (a + length b.old ≤ length mem.now) × (length mem.now % 2 ≡ 0) }
    ensures { b.new ≡ gathered swb mem.now a (length b.old) }
{
    if !b.is_empty() {
        gather(b, mem, a, swb);
    }
}

// And back.
fn bring_data(d: &[u8], mem: &mut [u8], a: usize, swb: bool)
    requires { (a + length d.now ≤ length mem.old) × (length mem.old % 2 ≡ 0) }
    ensures { mem.new ≡ placed swb mem.old a d.now }
{
    if !d.is_empty() {
        scatter(d, mem, a, swb);
    }
}

// The bytes at these places fill b: the data's, the message's, the reel's, the table's.
pub fn save(b: &mut [u8], t: Touched, mem: &[u8], reel: &[u8], table: &[u8])
    requires { (length b.old ≡ saved_length t) × TouchedIn t (length mem.now) (length reel.now) × PlacesIn t (length table.now) }
    ensures { b.new ≡ saved_bytes t mem.now reel.now table.now }
{
    let message = t.data_length;
    let blocks = message + t.message_length;
    let places = blocks + Geometry::BLOCK * t.reel_blocks;
    save_data(&mut b[0..message], mem, t.data_at, t.swb);
    gather(&mut b[message..blocks], mem, t.message_at, false);
    gather(
        &mut b[blocks..places],
        reel,
        Geometry::BLOCK * t.reel_at,
        false,
    );
    copy(
        table,
        PLACE * t.place_at,
        b,
        places,
        PLACE * t.places as usize,
    );
}

// The bytes that were saved go back to their places; the data last, since the message went over it.
pub fn bring_back(b: &[u8], t: Touched, mem: &mut [u8], reel: &mut [u8], table: &mut [u8])
    requires { (length b.now ≡ saved_length t) × TouchedIn t (length mem.old) (length reel.old) × PlacesIn t (length table.old) }
    ensures { Restored t b.now mem.old reel.old table.old mem.new reel.new table.new }
{
    let message = t.data_length;
    let blocks = message + t.message_length;
    let places = blocks + Geometry::BLOCK * t.reel_blocks;
    copy(
        b,
        places,
        table,
        PLACE * t.place_at,
        PLACE * t.places as usize,
    );
    scatter(&b[blocks..places], reel, Geometry::BLOCK * t.reel_at, false);
    scatter(&b[message..blocks], mem, t.message_at, false);
    bring_data(&b[0..message], mem, t.data_at, t.swb);
}
