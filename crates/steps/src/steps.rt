// Taking a step, and taking it back. The journal knows of a step only what it touches.
// Kept: memory, reel, table and journal come one by one, here and in journal. C lends the table, the reel or the journal to read alone for some calls, and a struct of all four would ask to write them.
ghost use Rattle.std.specs.Prelude.{false, Ok, ◌≡◌, length};
ghost use Rattle.commands.specs.declared.plans.Done.{Done};
ghost use Rattle.unit.specs.Steps.{carried, changed, stored};
ghost use Rattle.worlds.specs.Worlds.{Leaves, outcome_of, outcome_told, world_of};
ghost use Rattle.worlds.specs.Calls.{outcome, taken_as};
ghost use Rattle.steps.specs.Readiness.{CutReady, HostReady, Ready, Undoable, Undoes, change_refusal};

use commands::{Done, Plan};
use entries::{
    BARE, Entry, bring_entry_back, enter, enter_bare, enter_run, entry_fits, entry_length,
    newest_entry,
};
use index::Cut;
use state::{Refusal, Unit};
use touched::nothing;
use unit::{
    cut_for, fill_places, host_touched, objects_after, put_host, store, too_small, touched_by,
};
use worlds::{Session, Stepped, check};

// A step of transport k with plan p, for which the table is large enough: refused with 9 where its entry doesn't fit, else entered and then carried out. It cuts the table at
// c, and leaves so many places used.
fn take_step(
    s: Session,
    k: usize,
    p: Plan,
    interrupts: bool,
    c: Cut,
    top: usize,
    mem: &mut [u8],
    reel: &mut [u8],
    table: &mut [u8],
    jrnl: &mut [u8],
) -> Result<Stepped, Refusal>
    requires { CutReady s p c top reel.old table.old (length mem.old) (length jrnl.old) }
    ensures { Leaves (taken_as (world_of k s mem.old reel.old table.old jrnl.old) (carried (record { unit = s.unit; objects = s.objects; memory = mem.old; reel = reel.old; table = table.old }) p) (Ok (Done.Step interrupts))) jrnl.old (outcome_told s result) mem.new reel.new table.new jrnl.new }
{
    let unit = s.unit;
    let touched = touched_by(p, c.place);
    let e = Entry {
        unit,
        objects: s.objects,
        touched,
        transport: k,
    };
    let n = entry_length(e, mem.len(), reel.len());
    if s.journal - s.used < n {
        return Err(Refusal::Room);
    }
    enter(jrnl, s.used, e, mem, reel, table);
    store(p, mem, reel);
    let l = p.laid;
    fill_places(table, l, c);
    let next = p.unit;
    Ok(Stepped {
        done: Done::Step(interrupts),
        session: Session {
            unit: next,
            objects: top,
            used: s.used + n,
            journal: s.journal,
        },
    })
}

// A step of transport k with plan p: 11 where the table is too small for the objects before it or after it; then 9.
pub fn step(
    s: Session,
    k: usize,
    p: Plan,
    interrupts: bool,
    mem: &mut [u8],
    reel: &mut [u8],
    table: &mut [u8],
    jrnl: &mut [u8],
) -> Result<Stepped, Refusal>
    requires { Ready s p (length mem.old) (length reel.old) (length jrnl.old) }
    ensures { Leaves (taken_as (world_of k s mem.old reel.old table.old jrnl.old) (carried (record { unit = s.unit; objects = s.objects; memory = mem.old; reel = reel.old; table = table.old }) p) (Ok (Done.Step interrupts))) jrnl.old (outcome_told s result) mem.new reel.new table.new jrnl.new }
{
    if too_small(table.len(), s.objects, s.objects) {
        return Err(Refusal::Table);
    }
    let l = p.laid;
    let c = cut_for(l, table, s.objects, reel);
    let top = objects_after(l, c, s.objects);
    if too_small(table.len(), s.objects, top) {
        return Err(Refusal::Table);
    }
    take_step(s, k, p, interrupts, c, top, mem, reel, table, jrnl)
}

// Refusals 1 to 4, 11 and 9 of a step that changes the state alone.
// Kept: asked apart from the change, since in one function the session is copied with its Result, and a TSDB write costs 396 instructions in place of 219.
pub fn check_change(
    s: Session,
    memory: usize,
    reel: usize,
    table: usize,
    journal: usize,
) -> Result<(), Refusal>
    ensures { result ≡ change_refusal s memory reel table journal }
{
    check(s, memory, reel, journal)?;
    if too_small(table, s.objects, s.objects) {
        return Err(Refusal::Table);
    }
    if s.journal - s.used < BARE {
        return Err(Refusal::Room);
    }
    Ok(())
}

// A step of transport k that changes the state alone, and isn't refused: its entry saves no bytes, and nothing is stored.
pub fn change(
    s: Session,
    k: usize,
    next: Unit,
    mem: &mut [u8],
    reel: &mut [u8],
    table: &[u8],
    jrnl: &mut [u8],
) -> Session
    requires { change_refusal s (length mem.old) (length reel.old) (length table.now) (length jrnl.old) ≡ Ok tt }
    ensures { Leaves (taken_as (world_of k s mem.old reel.old table.now jrnl.old) (carried (record { unit = s.unit; objects = s.objects; memory = mem.old; reel = reel.old; table = table.now }) (changed next)) (Ok (Done.Step false))) jrnl.old (outcome (Ok (Done.Step false)) result) mem.new reel.new table.now jrnl.new }
{
    let unit = s.unit;
    let touched = nothing();
    let e = Entry {
        unit,
        objects: s.objects,
        touched,
        transport: k,
    };
    enter_bare(jrnl, s.used, e);
    Session {
        unit: next,
        objects: s.objects,
        used: s.used + BARE,
        journal: s.journal,
    }
}

// The host's bytes are entered and stored.
pub fn host_step(
    s: Session,
    mem: &mut [u8],
    reel: &[u8],
    table: &[u8],
    jrnl: &mut [u8],
    place: usize,
    bytes: &[u8],
) -> Result<Session, Refusal>
    requires { HostReady s (length mem.old) (length reel.now) (length jrnl.old) place (length bytes.now) }
    ensures { Leaves (taken_as (world_of 0 s mem.old reel.now table.now jrnl.old) (stored (record { unit = s.unit; objects = s.objects; memory = mem.old; reel = reel.now; table = table.now }) place bytes.now) (Ok (Done.Step false))) jrnl.old (outcome_of s result) mem.new reel.now table.now jrnl.new }
{
    if too_small(table.len(), s.objects, s.objects) {
        return Err(Refusal::Table);
    }
    let unit = s.unit;
    let touched = host_touched(place, bytes.len());
    let e = Entry {
        unit,
        objects: s.objects,
        touched,
        transport: 0,
    };
    let n = entry_length(e, mem.len(), reel.len());
    if s.journal - s.used < n {
        return Err(Refusal::Room);
    }
    enter_run(jrnl, s.used, e, mem, place, bytes.len());
    put_host(mem, place, bytes);
    let same = s.unit;
    Ok(Session {
        unit: same,
        objects: s.objects,
        used: s.used + n,
        journal: s.journal,
    })
}

// The newest entry brought back: 8 if its numbers don't fit or the state it holds is one that 1 refuses, 11 if the table is too small for the objects now or
// for those that come back.
pub fn undo(
    s: Session,
    mem: &mut [u8],
    reel: &mut [u8],
    table: &mut [u8],
    jrnl: &[u8],
) -> Result<Session, Refusal>
    requires { Undoable s (length mem.old) (length reel.old) (length jrnl.now) }
    ensures { Undoes s mem.old reel.old table.old jrnl.now (outcome_of s result) mem.new reel.new table.new }
{
    let e = newest_entry(jrnl, s.used, s.objects);
    let unit = e.unit;
    let mounted = s.unit.lengths;
    if !(entry_fits(e, s.used, mounted, mem.len(), reel.len(), s.objects)
        & !state::state_wrong(unit))
    {
        return Err(Refusal::Entry);
    }
    if too_small(table.len(), s.objects, e.objects) {
        return Err(Refusal::Table);
    }
    let n = entry_length(e, mem.len(), reel.len());
    bring_entry_back(jrnl, s.used, e, mem, reel, table);
    Ok(Session {
        unit,
        objects: e.objects,
        used: s.used - n,
        journal: s.journal,
    })
}
