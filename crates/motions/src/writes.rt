// Write and Format: the object goes where the tape stands, or for a retry, behind a gap, where the last object stood.
ghost use Rattle.std.specs.Prelude.{◌≡◌, ◌+◌, ◌≤◌, Ok};
ghost use Rattle.motions.specs.Parts.{laid_blocks};
ghost use Rattle.motions.specs.Writes.{behind_gap, no_room, retried, written_at, written_motion};

use crate::parts::{Ending, Laid, laid_blocks, rest};
use moves::{Sought, seek};
use signals::{End, Residual, flag};
use state::Tape;
use tape::{Damage, Geometry};

// Step 11: the object doesn't fit the reel: NEF, class 3, unmoved. (EOT shows by the position.)
fn no_room(t: Tape) -> Ending
    ensures { Ok result ≡ no_room t }
{
    let residual = Residual::Nothing;
    let end = End {
        class: 3,
        found: signals::NEF,
        xst3: 0,
        residual,
    };
    rest(end, t)
}

// Carried out: class 2 if it ends at or past EOT. A written mark sets TMK.
fn written_motion(l: Laid, blocks: usize, mark: bool) -> Ending
    requires { l.at + laid_blocks l ≤ blocks }
    ensures { Ok result ≡ written_motion l blocks mark }
{
    let after = l.at + laid_blocks(l);
    let marker = Geometry { capacity: blocks }.marker();
    let class = if marker <= after { 2 } else { 0 };
    let found = flag(mark, signals::TMK);
    let residual = Residual::Nothing;
    let end = End {
        class,
        found,
        xst3: 0,
        residual,
    };
    let tape = Tape {
        position: after,
        end: after,
    };
    Ending {
        laid: l,
        ..rest(end, tape)
    }
}

// Kept: `mark` beside `l`, here, in `written_motion` and in `retry`: `written_at` and `retried` are promised for every `mark`.
pub fn write_at(t: Tape, blocks: usize, l: Laid, mark: bool) -> Ending
    ensures { Ok result ≡ written_at t blocks l mark }
{
    if blocks < l.at {
        return no_room(t);
    }
    if blocks - l.at < laid_blocks(l) {
        return no_room(t);
    }
    written_motion(l, blocks, mark)
}

fn behind_gap(l: Laid, q: usize) -> Laid
    ensures { result ≡ behind_gap l q }
{
    Laid {
        at: q,
        gap_first: true,
        ..l
    }
}

// Retry: space reverse over gaps and one record or mark. None found: RIB, class 2, nothing written.
pub fn retry(reel: &[u8], t: Tape, blocks: usize, l: Laid, mark: bool) -> Result<Ending, Damage>
    ensures { result ≡ retried reel.now t blocks l mark }
{
    Ok(match seek(reel, true, t.position, t.end)? {
        Sought::Record(_, q) | Sought::Mark(q) => write_at(t, blocks, behind_gap(l, q), mark),
        Sought::Nothing(q) => {
            let residual = Residual::Nothing;
            let end = End {
                class: 2,
                found: 0,
                xst3: signals::REV + signals::RIB,
                residual,
            };
            rest(end, Tape { position: q, ..t })
        }
    })
}
