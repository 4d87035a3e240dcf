// The exported look-ups in the table: they change nothing.
ghost use Rattle.std.specs.Prelude.{◌≡◌};
ghost use Rattle.ts11.specs.Finds.{Finds, block_given, file_given};

use state::Refusal;
use stateblock::{block_right, session_in};

// The place where file `file` begins.
#[unsafe(no_mangle)]
pub extern "C" fn ts11_find_file(
    state: &[u8; 128],
    table: &[u8],
    file: usize,
    found: &mut bool,
    place: &mut usize,
) -> usize
    ensures { Finds (file_given state.now table.now file) result found.new place.new }
{
    *found = false;
    *place = 0;
    if !block_right(state) {
        return Refusal::State.number();
    }
    match journal::file_place(session_in(state), table, file) {
        Ok(x) => {
            *found = x.is_some();
            *place = x.unwrap_or(0);
            0
        }
        Err(refusal) => refusal.number(),
    }
}

// The place of the object that holds block `block`.
#[unsafe(no_mangle)]
pub extern "C" fn ts11_find_block(
    state: &[u8; 128],
    table: &[u8],
    block: usize,
    found: &mut bool,
    place: &mut usize,
) -> usize
    ensures { Finds (block_given state.now table.now block) result found.new place.new }
{
    *found = false;
    *place = 0;
    if !block_right(state) {
        return Refusal::State.number();
    }
    match journal::block_place(session_in(state), table, block) {
        Ok(x) => {
            *found = x.is_some();
            *place = x.unwrap_or(0);
            0
        }
        Err(refusal) => refusal.number(),
    }
}
