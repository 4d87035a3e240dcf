// "Host stores belong to no unit": no record of the row, no reel and no table is asked.
ghost use Rattle.std.specs.Prelude.{[], length};
ghost use Rattle.worlds.specs.Worlds.{Leaves};
ghost use Rattle.worlds.specs.Coupled.{host_on, shared_outcome, world_of_none};

use state::Refusal;
use steps::store_step;
use worlds::{Coupler, coupler_check};

// Refusals 1, 2, 4, 5 and 9.
pub fn host_store(
    c: Coupler,
    mem: &mut [u8],
    jrnl: &mut [u8],
    place: usize,
    bytes: &[u8],
) -> Result<Coupler, Refusal>
    ensures { Leaves (host_on (world_of_none c mem.old jrnl.old) (length jrnl.old) place bytes.now) jrnl.old (shared_outcome c result) mem.new [] [] jrnl.new }
{
    coupler_check(c, mem.len(), jrnl.len())?;
    if unit::store_wrong(mem.len(), place, bytes.len()) {
        return Err(Refusal::Store);
    }
    store_step(c, mem, jrnl, place, bytes)
}
