// The mount's reading of every block below the end.
ghost use Rattle.std.specs.Prelude.{◌≡◌};
ghost use Rattle.tape.specs.Sweep.{swept_below};

use tape::{Damage, Met};

// Each object takes a block or more, so `e` turns are enough.
pub fn sweep(reel: &[u8], e: usize) -> Result<(), Damage>
    ensures { result ≡ swept_below reel.now e }
{
    let mut p: usize = 0;
    for _ in 0..e {
        match crate::pass(reel, false, p, e)? {
            Met::Record(_, q) => p = q,
            Met::Mark(q) => p = q,
            Met::Gap(q) => p = q,
            Met::Nothing => return Ok(()),
        }
    }
    Ok(())
}
