// Look-ups in the table: they take the state and the table, and change nothing.
ghost use Rattle.std.specs.Prelude.{◌≡◌};
ghost use Rattle.worlds.specs.Calls.{block_on, file_on, find_refusal, finding_of};

use index::{find_block, find_file, places};
use state::Refusal;
use worlds::{Session, session_wrong};

// 1 as for a register, 11 where the table has fewer places than are used.
fn check_table(s: Session, table: usize) -> Result<(), Refusal>
    ensures { result ≡ find_refusal s table }
{
    if session_wrong(s) {
        return Err(Refusal::State);
    }
    if places(table) < s.objects {
        return Err(Refusal::Table);
    }
    Ok(())
}

// The place where file f begins.
pub fn file_place(s: Session, table: &[u8], f: usize) -> Result<Option<usize>, Refusal>
    ensures { finding_of result ≡ file_on s table.now f }
{
    check_table(s, table.len())?;
    Ok(find_file(table, s.objects, f))
}

// The place of the object that holds block b.
pub fn block_place(s: Session, table: &[u8], b: usize) -> Result<Option<usize>, Refusal>
    ensures { finding_of result ≡ block_on s table.now b }
{
    check_table(s, table.len())?;
    Ok(find_block(table, s.objects, s.unit.tape.end, b))
}
