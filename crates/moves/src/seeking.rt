// Gaps are passed over: the next record or mark, either way.
ghost use Rattle.std.specs.Prelude.{◌≡◌};
ghost use Rattle.moves.specs.Seeking.{sought};

use tape::{Damage, Met};

// What was found, and the position beyond it; where nothing is left, the position there.
#[derive(Clone, Copy)]
pub enum Sought {
    Record(usize, usize),
    Mark(usize),
    Nothing(usize),
}

// Each gap takes a block, so e turns are enough from a position up to e.
pub fn seek(reel: &[u8], reverse: bool, p: usize, e: usize) -> Result<Sought, Damage>
    ensures { result ≡ sought reel.now reverse p e }
{
    let mut at = p;
    for _ in 0..e {
        match reel::pass(reel, reverse, at, e)? {
            Met::Record(n, q) => return Ok(Sought::Record(n, q)),
            Met::Mark(q) => return Ok(Sought::Mark(q)),
            Met::Gap(q) => at = q,
            Met::Nothing => return Ok(Sought::Nothing(at)),
        }
    }
    Ok(Sought::Nothing(at))
}
