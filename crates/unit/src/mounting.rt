// Mounting a reel: refusals 2, 3 and 7.
ghost use Rattle.std.specs.Prelude.{◌≡◌};
ghost use Rattle.state.specs.declared.Unit.{Unit};
ghost use Rattle.unit.specs.Mounts.{mount_call, mount_left, mount_refusal, unit_left};

use state::{Lengths, Refusal, Unit};
use tape::Geometry;

// Lengths of memory, in bytes, and of the reel, with the end that is to be taken.
pub fn mount_refusal(memory: usize, reel: usize, e: usize) -> Result<(), Refusal>
    ensures { result ≡ mount_refusal memory reel e }
{
    if !state::memory_right(memory) {
        return Err(Refusal::Memory);
    }
    let blocks = reel / Geometry::BLOCK;
    if (reel % Geometry::BLOCK != 0) | (!state::blocks_right(blocks)) | (blocks < e) {
        return Err(Refusal::Reel);
    }
    Ok(())
}

// The state after a mount. The one that it replaces is not looked at, and stands where it is refused.
pub fn mount(
    memory: usize,
    reel: &[u8],
    e: usize,
    online: bool,
    locked: bool,
) -> Result<Unit, Refusal>
    ensures is { result ≡ mount_call memory reel.now e online locked }
    ensures left { (old : Unit) → unit_left old result ≡ mount_left old memory reel.now e online locked }
{
    mount_refusal(memory, reel.len(), e)?;
    match reel::sweep(reel, e) {
        Err(d) => Err(Refusal::BadBlock(d)),
        Ok(_) => {
            let lengths = Lengths {
                memory,
                blocks: reel.len() / Geometry::BLOCK,
            };
            Ok(state::mounted(e, online, locked, lengths))
        }
    }
}
