// Lines about the table beside the reel, with no call.
#![tactic(auto, unfolding(crate::specs::Tables::given_turn, crate::specs::Tables::given_bytes, crate::specs::Tables::poked_turn, crate::specs::Tables::poked_bytes, crate::specs::Tables::tabled_turn, crate::specs::Tables::tabled_bytes))]

ghost use Rattle.std.specs.Prelude.{◌≡◌};
ghost use Rattle.desk.specs.Tables.{given_bytes, given_turn, poked_bytes, poked_turn, tabled_bytes, tabled_turn};

use crate::arranges::still;
use crate::builds::{poke, settle};
use crate::{Desk, Turn};
use lines::{Sizes, Table};
use script::{Fault, wipe};

// A table of n bytes, all zero.
fn give_table(d: Desk, n: usize, table: &mut [u8]) -> Result<Turn, Fault>
    ensures turn { result ≡ given_turn d n table.old }
    ensures table { table.new ≡ given_bytes d n table.old }
{
    if table.len() < n {
        return Err(Fault::BeyondBuffers);
    }
    wipe(table, 0, d.sizes.table);
    let sizes = Sizes {
        table: n,
        ..d.sizes
    };
    still(Desk { sizes, ..d })
}

// Bytes at a place of the table.
fn poke_table(d: Desk, at: usize, bytes: &[u8], table: &mut [u8]) -> Result<Turn, Fault>
    ensures turn { result ≡ poked_turn d at bytes.now table.old }
    ensures table { table.new ≡ poked_bytes d at bytes.now table.old }
{
    let n = d.sizes.table.min(table.len());
    settle(
        d,
        poke(&mut table[..n], at, bytes, d.cursor, Fault::OutsideTable),
    )
}

// With the bytes that the line gives.
pub fn tabled(d: Desk, t: Table, bytes: &[u8], table: &mut [u8]) -> Result<Turn, Fault>
    ensures turn { result ≡ tabled_turn d t bytes.now table.old }
    ensures table { table.new ≡ tabled_bytes d t bytes.now table.old }
{
    match t {
        Table::Index(n) => give_table(d, n, table),
        Table::Poke(at) => poke_table(d, at, bytes, table),
    }
}
