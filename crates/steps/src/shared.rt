// Steps of no transport: a host store entered and carried out, or undone. No record of the row, no reel and no table plays a part.
// Kept: promised over a world of none, with no reel and no table to lend, beside `host_step` and `undo`, which the calls of C stand on.
ghost use Rattle.std.specs.Prelude.{false, [], Ok, length};
ghost use Rattle.commands.specs.declared.plans.Done.{Done};
ghost use Rattle.unit.specs.Steps.{stored};
ghost use Rattle.worlds.specs.Worlds.{Leaves};
ghost use Rattle.worlds.specs.Calls.{taken_as};
ghost use Rattle.worlds.specs.Coupled.{shared_outcome, undo_none, world_of_none};
ghost use Rattle.steps.specs.Readiness.{NoneUndoable, StoreReady};

use entries::{
    BARE, Entry, TRANSPORTS, bring_entry_back, enter_run, entry_fits, entry_length, newest_entry,
};
use state::{Lengths, Refusal};
use unit::{host_touched, put_host};
use worlds::{Coupler, no_transport, session_over};

// The host's bytes are entered and stored, unless the entry doesn't fit: 9.
pub fn store_step(
    c: Coupler,
    mem: &mut [u8],
    jrnl: &mut [u8],
    place: usize,
    bytes: &[u8],
) -> Result<Coupler, Refusal>
    requires { StoreReady c (length mem.old) (length jrnl.old) place (length bytes.now) }
    ensures { Leaves (taken_as (world_of_none c mem.old jrnl.old) (stored (world_of_none c mem.old jrnl.old).core place bytes.now) (Ok (Done.Step false))) jrnl.old (shared_outcome c result) mem.new [] [] jrnl.new }
{
    let n = BARE + bytes.len();
    if c.journal - c.used < n {
        return Err(Refusal::Room);
    }
    let t = no_transport();
    let s = session_over(t, c);
    let unit = s.unit;
    let touched = host_touched(place, bytes.len());
    let e = Entry {
        unit,
        objects: s.objects,
        touched,
        transport: TRANSPORTS,
    };
    enter_run(jrnl, c.used, e, mem, place, bytes.len());
    put_host(mem, place, bytes);
    Ok(Coupler {
        used: c.used + n,
        memory: c.memory,
        journal: c.journal,
    })
}

// The newest entry, which names no transport, brought back: memory alone. 8 if its numbers don't fit.
pub fn undo_none(c: Coupler, mem: &mut [u8], jrnl: &[u8]) -> Result<Coupler, Refusal>
    requires { NoneUndoable c (length mem.old) (length jrnl.now) }
    ensures { Leaves (undo_none (world_of_none c mem.old jrnl.now)) jrnl.now (shared_outcome c result) mem.new [] [] jrnl.now }
{
    let e = newest_entry(jrnl, c.used, 0);
    let mounted = Lengths {
        memory: c.memory,
        blocks: 0,
    };
    if !entry_fits(e, c.used, mounted, mem.len(), 0, 0) {
        return Err(Refusal::Entry);
    }
    let n = entry_length(e, mem.len(), 0);
    let mut no_reel = [0u8; 0];
    let mut no_table = [0u8; 0];
    bring_entry_back(jrnl, c.used, e, mem, &mut no_reel, &mut no_table);
    Ok(Coupler {
        used: c.used - n,
        memory: c.memory,
        journal: c.journal,
    })
}
