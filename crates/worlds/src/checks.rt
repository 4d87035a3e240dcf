// Refusals 1 to 4, which every step and step back makes first.
ghost use Rattle.std.specs.Prelude.{◌≡◌};
ghost use Rattle.worlds.specs.Refusals.{checked, session_wrong};

use crate::{JOURNAL_LIMIT, Session};
use state::Refusal;

// Refusal 1: the state's own numbers, the used journal and the mounted lengths.
pub fn session_wrong(s: Session) -> bool
    ensures { result ≡ session_wrong s }
{
    let u = s.unit;
    state::state_wrong(u) | ((s.journal < s.used) | (JOURNAL_LIMIT < s.journal))
}

// The first of refusals 1 to 4 that holds. The lengths are in bytes.
pub fn check(s: Session, memory: usize, reel: usize, journal: usize) -> Result<(), Refusal>
    ensures { result ≡ checked s memory reel journal }
{
    if session_wrong(s) {
        return Err(Refusal::State);
    }
    state::unit_check(s.unit, memory, reel)?;
    if journal != s.journal {
        return Err(Refusal::Journal);
    }
    Ok(())
}
