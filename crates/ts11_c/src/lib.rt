// The library that a debugger links: the calls of `ts11`, each under its name in C and with the same clauses. A buffer is a pointer and a length;
// buffers do not overlap.
#![tactic(auto)]

ghost use Rattle.std.specs.Prelude.{length};
ghost use Rattle.unit.specs.Asks.{Ask};
ghost use Rattle.tape.specs.Afresh.{objects_in};
ghost use Rattle.worlds.specs.Calls.{mount_on, table_mounted};
ghost use Rattle.stateblock.specs.Block.{session_in};
ghost use Rattle.ts11.specs.Finds.{Finds, block_given, file_given};
ghost use Rattle.ts11.specs.Given.{Gives, Mounts, Reads, Tells, act_of, back_given, holding, register_given, step_given};

#[unsafe(no_mangle)]
pub extern "C" fn ts11_mount(
    state: &mut [u8; 128],
    memory_length: usize,
    reel: &[u8],
    table: &mut [u8],
    journal_length: usize,
    end: usize,
    online: bool,
    locked: bool,
    block: &mut usize,
    fault: &mut u8,
) -> usize
    ensures { Mounts state.old (mount_on (session_in state.old) memory_length reel.now (length table.old) journal_length end online locked) (table_mounted table.old (objects_in reel.now end) (mount_on (session_in state.old) memory_length reel.now (length table.old) journal_length end online locked).answer) result state.new table.new block.new fault.new }
{
    ts11::ts11_mount(
        state,
        memory_length,
        reel,
        table,
        journal_length,
        end,
        online,
        locked,
        block,
        fault,
    )
}

#[unsafe(no_mangle)]
pub extern "C" fn ts11_write_tsdb(
    state: &mut [u8; 128],
    memory: &mut [u8],
    reel: &mut [u8],
    table: &[u8],
    journal: &mut [u8],
    word: u16,
) -> usize
    ensures { Gives (holding state.old memory.old reel.old table.now journal.old) (step_given (Ask.write_tsdb word) (holding state.old memory.old reel.old table.now journal.old)) result (holding state.new memory.new reel.new table.now journal.new) }
{
    ts11::ts11_write_tsdb(state, memory, reel, table, journal, word)
}

#[unsafe(no_mangle)]
pub extern "C" fn ts11_write_tssr(
    state: &mut [u8; 128],
    memory: &mut [u8],
    reel: &mut [u8],
    table: &[u8],
    journal: &mut [u8],
    word: u16,
) -> usize
    ensures { Gives (holding state.old memory.old reel.old table.now journal.old) (step_given Ask.write_tssr (holding state.old memory.old reel.old table.now journal.old)) result (holding state.new memory.new reel.new table.now journal.new) }
{
    ts11::ts11_write_tssr(state, memory, reel, table, journal, word)
}

#[unsafe(no_mangle)]
pub extern "C" fn ts11_operate(
    state: &mut [u8; 128],
    memory: &mut [u8],
    reel: &mut [u8],
    table: &[u8],
    journal: &mut [u8],
    write_lock: bool,
    on: bool,
) -> usize
    ensures { Gives (holding state.old memory.old reel.old table.now journal.old) (step_given (Ask.operate (act_of write_lock on)) (holding state.old memory.old reel.old table.now journal.old)) result (holding state.new memory.new reel.new table.now journal.new) }
{
    ts11::ts11_operate(state, memory, reel, table, journal, write_lock, on)
}

#[unsafe(no_mangle)]
pub extern "C" fn ts11_read_register(state: &[u8; 128], tssr: bool, word: &mut u16) -> usize
    ensures { Reads (register_given state.now tssr) result word.new }
{
    ts11::ts11_read_register(state, tssr, word)
}

#[unsafe(no_mangle)]
pub extern "C" fn ts11_host_store(
    state: &mut [u8; 128],
    memory: &mut [u8],
    reel: &[u8],
    table: &[u8],
    journal: &mut [u8],
    place: usize,
    bytes: &[u8],
) -> usize
    ensures { Gives (holding state.old memory.old reel.now table.now journal.old) (step_given (Ask.host_store place bytes.now) (holding state.old memory.old reel.now table.now journal.old)) result (holding state.new memory.new reel.now table.now journal.new) }
{
    ts11::ts11_host_store(state, memory, reel, table, journal, place, bytes)
}

#[unsafe(no_mangle)]
pub extern "C" fn ts11_advance(
    state: &mut [u8; 128],
    memory: &mut [u8],
    reel: &mut [u8],
    table: &mut [u8],
    journal: &mut [u8],
    stepped: &mut bool,
    interrupt: &mut bool,
    block: &mut usize,
    fault: &mut u8,
) -> usize
    ensures gives { Gives (holding state.old memory.old reel.old table.old journal.old) (step_given Ask.advance (holding state.old memory.old reel.old table.old journal.old)) result (holding state.new memory.new reel.new table.new journal.new) }
    ensures tells { Tells (step_given Ask.advance (holding state.old memory.old reel.old table.old journal.old)) stepped.new interrupt.new block.new fault.new }
{
    ts11::ts11_advance(
        state, memory, reel, table, journal, stepped, interrupt, block, fault,
    )
}

#[unsafe(no_mangle)]
pub extern "C" fn ts11_step_back(
    state: &mut [u8; 128],
    memory: &mut [u8],
    reel: &mut [u8],
    table: &mut [u8],
    journal: &[u8],
) -> usize
    ensures { Gives (holding state.old memory.old reel.old table.old journal.now) (back_given (holding state.old memory.old reel.old table.old journal.now)) result (holding state.new memory.new reel.new table.new journal.now) }
{
    ts11::ts11_step_back(state, memory, reel, table, journal)
}

// The place where file `file` begins.
#[unsafe(no_mangle)]
pub extern "C" fn ts11_find_file(
    state: &[u8; 128],
    table: &[u8],
    file: usize,
    found: &mut bool,
    place: &mut usize,
) -> usize
    ensures { Finds (file_given state.now table.now file) result found.new place.new }
{
    ts11::ts11_find_file(state, table, file, found, place)
}

// The place of the object that holds block `block`.
#[unsafe(no_mangle)]
pub extern "C" fn ts11_find_block(
    state: &[u8; 128],
    table: &[u8],
    block: usize,
    found: &mut bool,
    place: &mut usize,
) -> usize
    ensures { Finds (block_given state.now table.now block) result found.new place.new }
{
    ts11::ts11_find_block(state, table, block, found, place)
}
