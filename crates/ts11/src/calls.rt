// The exported calls. A buffer is a pointer and a length; buffers do not overlap.
// Kept: each call looks at its Result itself. Handed on to one function, or behind a `?`, the session is copied, and a TSDB write costs 302 or 410 instructions in place of 219.
// Kept: their parameters come one by one, as C hands them; journal's and steps' calls are lent them as they come, the table some for reading alone.
ghost use Rattle.std.specs.Prelude.{◌≡◌, length};
ghost use Rattle.state.specs.Refusals.{block_of, fault_of};
ghost use Rattle.unit.specs.Asks.{Ask};
ghost use Rattle.tape.specs.Afresh.{objects_in};
ghost use Rattle.worlds.specs.Calls.{mount_on, table_mounted};
ghost use Rattle.stateblock.specs.Block.{session_in};
ghost use Rattle.ts11.specs.Given.{Gives, Mounts, Reads, Tells, act_of, back_given, holding, register_given, register_of, step_given};

use commands::Done;
use state::{Act, Refusal};
use stateblock::{block_right, close, session_in};
use unit::Register;

// The block at fault, with refusal 7, else 0; and the letter of what is wrong with it.
fn block_in(r: Refusal) -> usize
    ensures { result ≡ block_of r }
{
    if let Refusal::BadBlock(damage) = r {
        damage.block
    } else {
        0
    }
}

fn fault_in(r: Refusal) -> u8
    ensures { result ≡ fault_of r }
{
    if let Refusal::BadBlock(damage) = r {
        tape::letter(damage.fault)
    } else {
        0
    }
}

#[unsafe(no_mangle)]
pub extern "C" fn ts11_mount(
    state: &mut [u8; 128],
    memory_length: usize,
    reel: &[u8],
    table: &mut [u8],
    journal_length: usize,
    end: usize,
    online: bool,
    locked: bool,
    block: &mut usize,
    fault: &mut u8,
) -> usize
    ensures { Mounts state.old (mount_on (session_in state.old) memory_length reel.now (length table.old) journal_length end online locked) (table_mounted table.old (objects_in reel.now end) (mount_on (session_in state.old) memory_length reel.now (length table.old) journal_length end online locked).answer) result state.new table.new block.new fault.new }
{
    *block = 0;
    *fault = 0;
    match journal::mount(
        memory_length,
        reel,
        table,
        journal_length,
        end,
        online,
        locked,
    ) {
        Ok(session) => {
            close(state, Ok(Done::Step(false)), session);
            0
        }
        Err(refusal) => {
            *block = block_in(refusal);
            *fault = fault_in(refusal);
            refusal.number()
        }
    }
}

#[unsafe(no_mangle)]
pub extern "C" fn ts11_write_tsdb(
    state: &mut [u8; 128],
    memory: &mut [u8],
    reel: &mut [u8],
    table: &[u8],
    journal: &mut [u8],
    word: u16,
) -> usize
    ensures { Gives (holding state.old memory.old reel.old table.now journal.old) (step_given (Ask.write_tsdb word) (holding state.old memory.old reel.old table.now journal.old)) result (holding state.new memory.new reel.new table.now journal.new) }
{
    if !block_right(state) {
        return Refusal::State.number();
    }
    match journal::write_tsdb(session_in(state), 0, memory, reel, table, journal, word) {
        Ok(session) => {
            close(state, Ok(Done::Step(false)), session);
            0
        }
        Err(refusal) => refusal.number(),
    }
}

#[unsafe(no_mangle)]
pub extern "C" fn ts11_write_tssr(
    state: &mut [u8; 128],
    memory: &mut [u8],
    reel: &mut [u8],
    table: &[u8],
    journal: &mut [u8],
    _word: u16,
) -> usize
    ensures { Gives (holding state.old memory.old reel.old table.now journal.old) (step_given Ask.write_tssr (holding state.old memory.old reel.old table.now journal.old)) result (holding state.new memory.new reel.new table.now journal.new) }
{
    if !block_right(state) {
        return Refusal::State.number();
    }
    match journal::write_tssr(session_in(state), 0, memory, reel, table, journal) {
        Ok(session) => {
            close(state, Ok(Done::Step(false)), session);
            0
        }
        Err(refusal) => refusal.number(),
    }
}

fn act_of(write_lock: bool, on: bool) -> Act
    ensures { result ≡ act_of write_lock on }
{
    if write_lock {
        if on { Act::Lock } else { Act::Unlock }
    } else {
        if on { Act::OnLine } else { Act::OffLine }
    }
}

#[unsafe(no_mangle)]
pub extern "C" fn ts11_operate(
    state: &mut [u8; 128],
    memory: &mut [u8],
    reel: &mut [u8],
    table: &[u8],
    journal: &mut [u8],
    write_lock: bool,
    on: bool,
) -> usize
    ensures { Gives (holding state.old memory.old reel.old table.now journal.old) (step_given (Ask.operate (act_of write_lock on)) (holding state.old memory.old reel.old table.now journal.old)) result (holding state.new memory.new reel.new table.now journal.new) }
{
    if !block_right(state) {
        return Refusal::State.number();
    }
    match journal::operate(
        session_in(state),
        0,
        memory,
        reel,
        table,
        journal,
        act_of(write_lock, on),
    ) {
        Ok(session) => {
            close(state, Ok(Done::Step(false)), session);
            0
        }
        Err(refusal) => refusal.number(),
    }
}

fn register_of(tssr: bool) -> Register
    ensures { result ≡ register_of tssr }
{
    if tssr { Register::Tssr } else { Register::Tsba }
}

#[unsafe(no_mangle)]
pub extern "C" fn ts11_read_register(state: &[u8; 128], tssr: bool, word: &mut u16) -> usize
    ensures { Reads (register_given state.now tssr) result word.new }
{
    *word = 0;
    if !block_right(state) {
        return Refusal::State.number();
    }
    match journal::read_register(session_in(state), register_of(tssr)) {
        Ok(w) => {
            *word = w;
            0
        }
        Err(refusal) => refusal.number(),
    }
}

#[unsafe(no_mangle)]
pub extern "C" fn ts11_host_store(
    state: &mut [u8; 128],
    memory: &mut [u8],
    reel: &[u8],
    table: &[u8],
    journal: &mut [u8],
    place: usize,
    bytes: &[u8],
) -> usize
    ensures { Gives (holding state.old memory.old reel.now table.now journal.old) (step_given (Ask.host_store place bytes.now) (holding state.old memory.old reel.now table.now journal.old)) result (holding state.new memory.new reel.now table.now journal.new) }
{
    if !block_right(state) {
        return Refusal::State.number();
    }
    match journal::host_store(
        session_in(state),
        memory,
        reel,
        table,
        journal,
        place,
        bytes,
    ) {
        Ok(session) => {
            close(state, Ok(Done::Step(false)), session);
            0
        }
        Err(refusal) => refusal.number(),
    }
}

#[unsafe(no_mangle)]
pub extern "C" fn ts11_advance(
    state: &mut [u8; 128],
    memory: &mut [u8],
    reel: &mut [u8],
    table: &mut [u8],
    journal: &mut [u8],
    stepped: &mut bool,
    interrupt: &mut bool,
    block: &mut usize,
    fault: &mut u8,
) -> usize
    ensures gives { Gives (holding state.old memory.old reel.old table.old journal.old) (step_given Ask.advance (holding state.old memory.old reel.old table.old journal.old)) result (holding state.new memory.new reel.new table.new journal.new) }
    ensures tells { Tells (step_given Ask.advance (holding state.old memory.old reel.old table.old journal.old)) stepped.new interrupt.new block.new fault.new }
{
    // Kept: each way out tells all four. Set before the call, a Write costs 18 instructions more, and 512 bytes of it 1.20 of plain C.
    if !block_right(state) {
        *stepped = false;
        *interrupt = false; // bytes of no session
        *block = 0;
        *fault = 0;
        return Refusal::State.number();
    }
    match journal::advance(session_in(state), 0, memory, reel, table, journal) {
        Ok(x) => match x.done {
            Done::Step(interrupts) => {
                *stepped = true;
                *interrupt = interrupts;
                *block = 0;
                *fault = 0;
                close(state, Ok(x.done), x.session);
                0
            }
            Done::Idle => {
                *stepped = false;
                *interrupt = false;
                *block = 0;
                *fault = 0;
                0
            }
        },
        Err(refusal) => {
            *stepped = false;
            *interrupt = false;
            *block = block_in(refusal);
            *fault = fault_in(refusal);
            refusal.number()
        }
    }
}

#[unsafe(no_mangle)]
pub extern "C" fn ts11_step_back(
    state: &mut [u8; 128],
    memory: &mut [u8],
    reel: &mut [u8],
    table: &mut [u8],
    journal: &[u8],
) -> usize
    ensures { Gives (holding state.old memory.old reel.old table.old journal.now) (back_given (holding state.old memory.old reel.old table.old journal.now)) result (holding state.new memory.new reel.new table.new journal.now) }
{
    if !block_right(state) {
        return Refusal::State.number();
    }
    match journal::step_back(session_in(state), memory, reel, table, journal) {
        Ok(session) => {
            close(state, Ok(Done::Step(false)), session);
            0
        }
        Err(refusal) => refusal.number(),
    }
}
