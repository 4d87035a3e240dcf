// A step back over a row: which transport the newest entry names, and what refuses it. What is undone is then that transport's alone (`steps::undo`), or memory's
// (`steps::undo_none`), so whoever holds four reels lends one.
ghost use Rattle.std.specs.Prelude.{◌≡◌, ◌≤◌, length};
ghost use Rattle.entries.specs.Entries.{entry_bare, used_in};
ghost use Rattle.worlds.specs.Coupled.{named_in};
ghost use Rattle.worlds.specs.Rows.{back_refusal};

use entries::{BARE, TRANSPORTS, newest_entry};
use state::Refusal;
use worlds::{Coupler, Seat, row_check, standing};

// The number that the newest entry has: a transport's, or the one that names none.
// Kept: a number, as it stands in the entry (`named_in`).
pub fn named(c: Coupler, jrnl: &[u8]) -> usize
    requires { (entry_bare ≤ c.used) × (c.used ≤ length jrnl.now) }
    ensures { result ≡ named_in (used_in c.used jrnl.now) }
{
    let e = newest_entry(jrnl, c.used, 0);
    e.transport
}

// Refusals 1 to 4, 6 and 8 of a step back over a row; where none is made the newest entry's transport is mounted, or it names none.
pub fn back_refusal(c: Coupler, seats: &[Seat], memory: usize, jrnl: &[u8]) -> Result<(), Refusal>
    ensures { result ≡ back_refusal c seats.now memory (length jrnl.now) (named_in (used_in c.used jrnl.now)) }
{
    row_check(c, seats, memory, jrnl.len())?;
    if c.used == 0 {
        return Err(Refusal::Empty);
    }
    if c.used < BARE {
        return Err(Refusal::Entry);
    }
    let k = named(c, jrnl);
    if (k == TRANSPORTS) | standing(seats, k) {
        return Ok(());
    }
    Err(Refusal::Entry)
}
