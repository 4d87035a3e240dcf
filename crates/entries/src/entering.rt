// Making an entry: the state before the step, and the bytes that it is about to store over.
// Kept: the journal's bytes and how many are used come apart, since each call is lent the bytes and the number is the session's; a struct of both would be built
// at every call to be taken apart here. What `TouchedIn` says ties a step's places to the lengths of what is lent, so it can be no field of `Touched`.
ghost use Rattle.std.specs.Prelude.{[], ◌≡◌, ◌+◌, ◌≤◌, ◌%◌, length};
ghost use Rattle.std.proofs.lemmas.List.Edits.{sets};
ghost use Rattle.touched.specs.Touches.{PlacesIn, TouchedIn, none, run_of};
ghost use Rattle.lists.specs.Fours.{number_bytes};
ghost use Rattle.entries.specs.Bytes.{front_length, numbers_bytes};
ghost use Rattle.entries.specs.Entries.{entry_bare, entry_bytes, entry_length};
ghost use Rattle.entries.specs.Numbers.{numbers_of};

use crate::bytes::put_head;
use crate::numbers::numbers_of;
use crate::{BARE, Entry, FRONT};
use lists::{gather, put_number};
use touched::{save, saved_length};

// "Entry length is 128 + stored memory bytes + stored reel bytes", and eight for each place filled. The lengths of memory and reel are in bytes.
pub fn entry_length(e: Entry, memory: usize, reel: usize) -> usize
    requires { TouchedIn e.touched memory reel }
    ensures { result ≡ entry_length e }
{
    let t = e.touched;
    BARE + saved_length(t, memory, reel)
}

// What stands around the bytes that an entry saves, so many of them: its length at its front, and its head at its end.
fn frame(jrnl: &mut [u8], used: usize, e: Entry, saved: usize)
    requires { (used + entry_bare + saved ≤ length jrnl.old) × (entry_bare + saved ≤ 4294967295) }
    ensures { jrnl.new ≡ sets (sets jrnl.old used (number_bytes (entry_bare + saved))) (used + front_length + saved) (numbers_bytes (numbers_of e)) }
{
    put_number(jrnl, used, (BARE + saved) as u32);
    put_head(jrnl, used + FRONT + saved, numbers_of(e));
}

// The entry goes into the journal from `used` on: its length, the old bytes of its places, its head.
pub fn enter(jrnl: &mut [u8], used: usize, e: Entry, mem: &[u8], reel: &[u8], table: &[u8])
    requires { (used + entry_length e ≤ length jrnl.old) × (length jrnl.old ≤ 4294967295) × TouchedIn e.touched (length mem.now) (length reel.now) × PlacesIn e.touched (length table.now) }
    ensures { jrnl.new ≡ sets jrnl.old used (entry_bytes e mem.now reel.now table.now) }
{
    let t = e.touched;
    let saved = saved_length(t, mem.len(), reel.len());
    let from = used + FRONT;
    frame(jrnl, used, e, saved);
    save(&mut jrnl[from..from + saved], t, mem, reel, table);
}

// An entry that saves no byte, of a step that changes the state alone.
// Kept: three ways to enter over one `frame`, by what is saved: all that a step touches, nothing, a run.
pub fn enter_bare(jrnl: &mut [u8], used: usize, e: Entry)
    requires { (used + entry_bare ≤ length jrnl.old) × (e.touched ≡ none) }
    ensures { jrnl.new ≡ sets jrnl.old used (entry_bytes e [] [] []) }
{
    frame(jrnl, used, e, 0);
}

// An entry that saves n bytes of memory and no more: a host store's.
pub fn enter_run(jrnl: &mut [u8], used: usize, e: Entry, mem: &[u8], at: usize, n: usize)
    requires { (used + entry_bare + n ≤ length jrnl.old) × (at + n ≤ length mem.now) × (length mem.now % 2 ≡ 0) × (length mem.now ≤ 1073741824) × (e.touched ≡ run_of at n) }
    ensures { jrnl.new ≡ sets jrnl.old used (entry_bytes e mem.now [] []) }
{
    let from = used + FRONT;
    frame(jrnl, used, e, n);
    gather(&mut jrnl[from..from + n], mem, at, false);
}
