// Reading the newest entry, whatever bytes stand there, and bringing its old bytes back.
ghost use Rattle.std.specs.Prelude.{◌≡◌, ◌≤◌, length};
ghost use Rattle.touched.specs.Touches.{PlacesIn, Restored, Sizes, TouchedIn};
ghost use Rattle.entries.specs.Bytes.{head_length};
ghost use Rattle.entries.specs.Entries.{entry_fits, entry_length, newest_entry, saved_in, used_in};

use crate::bytes::head_at;
use crate::numbers::entry_of;
use crate::{BARE, Entry, FRONT, HEAD};
use state::Lengths;
use touched::{bring_back, saved_length, touched_fits};

// The entry whose head ends at `used`, where `top` places of the table are used.
pub fn newest_entry(jrnl: &[u8], used: usize, top: usize) -> Entry
    requires { (head_length ≤ used) × (used ≤ length jrnl.now) }
    ensures { result ≡ newest_entry top (used_in used jrnl.now) }
{
    entry_of(head_at(jrnl, used - HEAD), top)
}

// Do the entry's own numbers fit the used journal, the mount's lengths, memory and reel, in bytes, and the used places of the table?
pub fn entry_fits(
    e: Entry,
    used: usize,
    mounted: Lengths,
    memory: usize,
    reel: usize,
    top: usize,
) -> bool
    requires { Sizes memory reel }
    ensures { result ≡ entry_fits e used mounted memory reel top }
{
    let t = e.touched;
    let right = (e.unit.lengths == mounted)
        & (touched_fits(t, memory, reel) & (t.places as usize <= top));
    right && BARE + saved_length(t, memory, reel) <= used
}

// The old bytes that stand in the entry below `used` go back to their places.
pub fn bring_entry_back(
    jrnl: &[u8],
    used: usize,
    e: Entry,
    mem: &mut [u8],
    reel: &mut [u8],
    table: &mut [u8],
)
    requires { (used ≤ length jrnl.now) × (entry_length e ≤ used) × TouchedIn e.touched (length mem.old) (length reel.old) × PlacesIn e.touched (length table.old) }
    ensures { Restored e.touched (saved_in e (used_in used jrnl.now)) mem.old reel.old table.old mem.new reel.new table.new }
{
    let t = e.touched;
    let head = used - HEAD;
    let from = head - saved_length(t, mem.len(), reel.len());
    bring_back(&jrnl[from..head], t, mem, reel, table);
}
