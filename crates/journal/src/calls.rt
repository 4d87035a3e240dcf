// The calls. Each contract says that answer, session, memory, reel, table and used journal are those of a definition in crate worlds
// (specs/Calls.antt); the theorems over any sequence of them are listed in crates/sessions/src/lib.rt.
ghost use Rattle.std.specs.Prelude.{◌≡◌, length};
ghost use Rattle.unit.specs.Asks.{Ask};
ghost use Rattle.worlds.specs.Worlds.{Leaves, answer_of, outcome_of, outcome_told, world_of};
ghost use Rattle.tape.specs.Afresh.{objects_in};
ghost use Rattle.worlds.specs.Calls.{back_on, mount_on, read_of, register_on, step_on, table_mounted};
ghost use Rattle.worlds.specs.declared.Session.{Session};

use commands::Done;
use state::{Act, Refusal};
use steps::{change, check_change, host_step, mount_table, step, undo};
use unit::{Register, register_word};
use worlds::{JOURNAL_LIMIT, Session, Stepped, check, session_wrong};

pub fn write_tsdb(
    s: Session,
    k: usize,
    mem: &mut [u8],
    reel: &mut [u8],
    table: &[u8],
    jrnl: &mut [u8],
    word: u16,
) -> Result<Session, Refusal>
    ensures { Leaves (step_on (world_of k s mem.old reel.old table.now jrnl.old) (length jrnl.old) (Ask.write_tsdb word)) jrnl.old (outcome_of s result) mem.new reel.new table.now jrnl.new }
{
    check_change(s, mem.len(), reel.len(), table.len(), jrnl.len())?;
    Ok(change(s, k, s.unit.write_tsdb(word), mem, reel, table, jrnl))
}

// Any value initializes.
pub fn write_tssr(
    s: Session,
    k: usize,
    mem: &mut [u8],
    reel: &mut [u8],
    table: &[u8],
    jrnl: &mut [u8],
) -> Result<Session, Refusal>
    ensures { Leaves (step_on (world_of k s mem.old reel.old table.now jrnl.old) (length jrnl.old) Ask.write_tssr) jrnl.old (outcome_of s result) mem.new reel.new table.now jrnl.new }
{
    check_change(s, mem.len(), reel.len(), table.len(), jrnl.len())?;
    Ok(change(s, k, s.unit.initialize(), mem, reel, table, jrnl))
}

pub fn operate(
    s: Session,
    k: usize,
    mem: &mut [u8],
    reel: &mut [u8],
    table: &[u8],
    jrnl: &mut [u8],
    act: Act,
) -> Result<Session, Refusal>
    ensures { Leaves (step_on (world_of k s mem.old reel.old table.now jrnl.old) (length jrnl.old) (Ask.operate act)) jrnl.old (outcome_of s result) mem.new reel.new table.now jrnl.new }
{
    check_change(s, mem.len(), reel.len(), table.len(), jrnl.len())?;
    Ok(change(s, k, s.unit.operate(act), mem, reel, table, jrnl))
}

// The word, or refusal 1.
pub fn read_register(s: Session, register: Register) -> Result<u16, Refusal>
    ensures { read_of result ≡ register_on s register }
{
    if session_wrong(s) {
        return Err(Refusal::State);
    }
    Ok(register_word(s.unit, register))
}

pub fn host_store(
    s: Session,
    mem: &mut [u8],
    reel: &[u8],
    table: &[u8],
    jrnl: &mut [u8],
    place: usize,
    bytes: &[u8],
) -> Result<Session, Refusal>
    ensures { Leaves (step_on (world_of 0 s mem.old reel.now table.now jrnl.old) (length jrnl.old) (Ask.host_store place bytes.now)) jrnl.old (outcome_of s result) mem.new reel.now table.now jrnl.new }
{
    check(s, mem.len(), reel.len(), jrnl.len())?;
    if unit::store_wrong(mem.len(), place, bytes.len()) {
        return Err(Refusal::Store);
    }
    host_step(s, mem, reel, table, jrnl, place, bytes)
}

#[tactic(auto, unfolding(worlds::specs::Calls::step_on, worlds::specs::Calls::guarded, worlds::specs::Calls::taken_by, unit::specs::Steps::step_of, unit::specs::Steps::carried))]
pub fn advance(
    s: Session,
    k: usize,
    mem: &mut [u8],
    reel: &mut [u8],
    table: &mut [u8],
    jrnl: &mut [u8],
) -> Result<Stepped, Refusal>
    ensures { Leaves (step_on (world_of k s mem.old reel.old table.old jrnl.old) (length jrnl.old) Ask.advance) jrnl.old (outcome_told s result) mem.new reel.new table.new jrnl.new }
{
    check(s, mem.len(), reel.len(), jrnl.len())?;
    let p = unit::plan_advance(s.unit, mem, reel);
    match p.answer? {
        Done::Step(interrupts) => step(s, k, p, interrupts, mem, reel, table, jrnl),
        Done::Idle => Ok(Stepped {
            done: Done::Idle,
            session: s,
        }),
    }
}

pub fn step_back(
    s: Session,
    mem: &mut [u8],
    reel: &mut [u8],
    table: &mut [u8],
    jrnl: &[u8],
) -> Result<Session, Refusal>
    ensures { Leaves (back_on (world_of 0 s mem.old reel.old table.old jrnl.now) (length jrnl.now)) jrnl.now (outcome_of s result) mem.new reel.new table.new jrnl.now }
{
    check(s, mem.len(), reel.len(), jrnl.len())?;
    if s.used == 0 {
        return Err(Refusal::Empty);
    }
    if s.used < entries::BARE {
        return Err(Refusal::Entry);
    }
    undo(s, mem, reel, table, jrnl)
}

// Mount: the session it replaces is not looked at, and stands where it is refused; else the table is filled and the journal empty.
pub fn mount(
    memory: usize,
    reel: &[u8],
    table: &mut [u8],
    journal: usize,
    e: usize,
    online: bool,
    locked: bool,
) -> Result<Session, Refusal>
    ensures outcome { (old : Session) → outcome_of old result ≡ mount_on old memory reel.now (length table.old) journal e online locked }
    ensures table { table.new ≡ table_mounted table.old (objects_in reel.now e) (answer_of result) }
{
    unit::mount_refusal(memory, reel.len(), e)?;
    if JOURNAL_LIMIT < journal {
        return Err(Refusal::Journal);
    }
    let u = unit::mount(memory, reel, e, online, locked)?;
    mount_table(u, reel, table, journal, e)
}
