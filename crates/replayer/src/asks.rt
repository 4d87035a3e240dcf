// The calls.
#![tactic(auto, unfolding(crate::specs::Asks::ask_of, crate::specs::Tells::step_also, crate::specs::Tells::step_told, crate::specs::Tells::read_told, crate::specs::Tells::told_by, crate::specs::Tells::told_on, crate::specs::Calls::call_on, crate::specs::Calls::entered))]

ghost use Rattle.std.specs.Prelude.{◌≡◌, length};
ghost use Rattle.worlds.specs.Worlds.{Leaves, outcome_of, outcome_told, session_told, world_of};
ghost use Rattle.worlds.specs.Calls.{step_on};
ghost use Rattle.worlds.specs.declared.Session.{Session};
ghost use Rattle.replayer.specs.Asks.{ask_of};
ghost use Rattle.replayer.specs.Calls.{call_on};
ghost use Rattle.replayer.specs.Journals.{JournalLeft};
ghost use Rattle.replayer.specs.Tells.{read_told, step_told, told_as, told_on};

use commands::Done;
use lines::{Ask, Call};
use results::{Also, Told};
use state::Refusal;
use unit::Register;
use worlds::{Session, Stepped};

// A step of any call but an advance interrupts nothing.
fn stepped(r: Result<Session, Refusal>) -> Result<Stepped, Refusal>
    ensures { (s : Session) → outcome_told s result ≡ outcome_of s r }
{
    match r {
        Ok(session) => Ok(Stepped {
            done: Done::Step(false),
            session,
        }),
        Err(refusal) => Err(refusal),
    }
}

// A step, with the bytes that its line gives.
fn ask(
    s: Session,
    a: Ask,
    bytes: &[u8],
    mem: &mut [u8],
    reel: &mut [u8],
    table: &mut [u8],
    jrnl: &mut [u8],
) -> Result<Stepped, Refusal>
    ensures { Leaves (step_on (world_of 0 s mem.old reel.old table.old jrnl.old) (length jrnl.old) (ask_of a bytes.now)) jrnl.old (outcome_told s result) mem.new reel.new table.new jrnl.new }
{
    match a {
        Ask::WriteTsdb(w) => stepped(journal::write_tsdb(s, 0, mem, reel, table, jrnl, w)),
        Ask::WriteTssr => stepped(journal::write_tssr(s, 0, mem, reel, table, jrnl)),
        Ask::Operate(act) => stepped(journal::operate(s, 0, mem, reel, table, jrnl, act)),
        Ask::HostStore(at) => stepped(journal::host_store(s, mem, reel, table, jrnl, at, bytes)),
        Ask::Advance => journal::advance(s, 0, mem, reel, table, jrnl),
    }
}

// The session after a call that was handed s.
fn left(s: Session, r: Result<Stepped, Refusal>) -> Session
    ensures { result ≡ session_told s r }
{
    match r {
        Ok(x) => x.session,
        Err(_) => s,
    }
}

fn told(s: Session, r: Result<Stepped, Refusal>, also: Also) -> Told
    ensures { result ≡ told_as (outcome_told s r) also }
{
    match r {
        Ok(x) => Told {
            answer: Ok(x.done),
            also,
            session: x.session,
        },
        Err(refusal) => Told {
            answer: Err(refusal),
            also,
            session: s,
        },
    }
}

// A step tells how much longer the used journal is, and an advance whether it interrupts.
fn step(s: Session, a: Ask, r: Result<Stepped, Refusal>) -> Told
    ensures { result ≡ step_told s a (outcome_told s r) }
{
    let entry = left(s, r).used.saturating_sub(s.used);
    match a {
        Ask::Advance => told(s, r, Also::Interrupt(entry)),
        _ => told(s, r, Also::Entry(entry)),
    }
}

fn read(s: Session, register: Register) -> Told
    ensures { result ≡ read_told s register }
{
    match journal::read_register(s, register) {
        Ok(word) => Told {
            answer: Ok(Done::Step(false)),
            also: Also::Word(word as usize),
            session: s,
        },
        Err(refusal) => Told {
            answer: Err(refusal),
            also: Also::Word(0),
            session: s,
        },
    }
}

// The call over what it is handed, with the bytes that its line gives.
pub fn call(
    s: Session,
    c: Call,
    bytes: &[u8],
    mem: &mut [u8],
    reel: &mut [u8],
    table: &mut [u8],
    jrnl: &mut [u8],
) -> Told
    ensures told { result ≡ told_on c bytes.now s mem.old reel.old table.old jrnl.old }
    ensures memory { mem.new ≡ (call_on c bytes.now s mem.old reel.old table.old jrnl.old).world.core.memory }
    ensures reel { reel.new ≡ (call_on c bytes.now s mem.old reel.old table.old jrnl.old).world.core.reel }
    ensures table { table.new ≡ (call_on c bytes.now s mem.old reel.old table.old jrnl.old).world.core.table }
    ensures journal { JournalLeft c (call_on c bytes.now s mem.old reel.old table.old jrnl.old) jrnl.old jrnl.new }
{
    match c {
        Call::Mount(e, online, locked) => told(
            s,
            stepped(journal::mount(mem.len(), reel, table, jrnl.len(), e, online, locked)),
            Also::Nothing,
        ),
        Call::ReadTsba => read(s, Register::Tsba),
        Call::ReadTssr => read(s, Register::Tssr),
        Call::Step(a) => step(s, a, ask(s, a, bytes, mem, reel, table, jrnl)),
        Call::StepBack => told(
            s,
            stepped(journal::step_back(s, mem, reel, table, jrnl)),
            Also::Nothing,
        ),
    }
}
