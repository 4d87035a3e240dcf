// Look-ups over a table of n places, of whatever bytes: they answer, and read nothing outside it.
// Kept: n beside the table: it is the state's number, and may be more than the table that C lends has (11).
ghost use Rattle.std.specs.Prelude.{◌≡◌};
ghost use Rattle.index.specs.Finding.{block_found, file_found};

use crate::halving::{halve, places};

// The place where file f begins: the object behind the f-th mark, or the first of all.
#[tactic(auto, unfolding(crate::specs::Finding::file_found))]
pub fn find_file(table: &[u8], n: usize, f: usize) -> Option<usize>
    ensures { result ≡ file_found table.now n f }
{
    if places(table.len()) < n {
        return None;
    }
    let i = halve(table, 4, f, n);
    if i < n { Some(i) } else { None }
}

// The place of the object that holds block b, of a reel recorded up to e.
#[tactic(auto, unfolding(crate::specs::Finding::block_found))]
pub fn find_block(table: &[u8], n: usize, e: usize, b: usize) -> Option<usize>
    ensures { result ≡ block_found table.now n e b }
{
    if places(table.len()) < n {
        return None;
    }
    if e <= b {
        return None;
    }
    halve(table, 0, b + 1, n).checked_sub(1)
}
