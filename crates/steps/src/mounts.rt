// A mount whose reel is whole: its table.
ghost use Rattle.std.specs.Prelude.{Ok, ◌≡◌, ◌≤◌, length};
ghost use Rattle.tape.specs.Afresh.{objects_in};
ghost use Rattle.tape.specs.Numbers.{capacity_limit};
ghost use Rattle.tape.specs.Objects.{Holds};
ghost use Rattle.worlds.specs.Worlds.{answer_of, outcome_of};
ghost use Rattle.worlds.specs.Calls.{mounted_by, table_mounted};
ghost use Rattle.worlds.specs.declared.Session.{Session};

use index::{count_objects, fill_table, places};
use state::{Refusal, Unit};
use worlds::Session;

// Refusal 11 where the table is too small for the objects below e; else the table is filled, and the journal is empty. The objects are counted first, so that a
// refused mount leaves the table alone.
pub fn mount_table(
    unit: Unit,
    reel: &[u8],
    table: &mut [u8],
    journal: usize,
    e: usize,
) -> Result<Session, Refusal>
    requires { Holds reel.now e (objects_in reel.now e) × (e ≤ capacity_limit) }
    ensures outcome { (old : Session) → outcome_of old result ≡ mounted_by old (length table.old) journal (objects_in reel.now e) (Ok unit) }
    ensures table { table.new ≡ table_mounted table.old (objects_in reel.now e) (answer_of result) }
{
    let n = count_objects(reel, e);
    if places(table.len()) < n {
        return Err(Refusal::Table);
    }
    fill_table(table, reel, e);
    Ok(Session {
        unit,
        objects: n,
        used: 0,
        journal,
    })
}
