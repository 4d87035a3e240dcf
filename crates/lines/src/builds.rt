// Lines that put bytes into memory or reel with no call.
#![tactic(auto, unfolding(crate::specs::Building::poke_line, crate::specs::Building::poke_reel_line, crate::specs::Building::word_line, crate::specs::Building::sum_line, crate::specs::Building::record_line, crate::specs::Building::made_line))]

ghost use Rattle.std.specs.Prelude.{◌≡◌};
ghost use Rattle.lines.specs.Building.{made_line, poke_line, poke_reel_line, record_line, sum_line, word_line};

use crate::words::has_word;
use crate::{Build, Does, Given, Line};
use script::{Fault, argument, numbers};

pub // Kept: two lines each, here and in tables.rt; one for all would take a closure for the constructor.
fn poke_line(text: &[u8]) -> Result<Line, Fault>
    ensures { result ≡ poke_line text.now }
{
    let at = argument(text, 1)?;
    Ok(Does::Builds(Build::Poke(at)).giving(Given::Word(2)))
}

pub fn poke_reel_line(text: &[u8]) -> Result<Line, Fault>
    ensures { result ≡ poke_reel_line text.now }
{
    let at = argument(text, 1)?;
    Ok(Does::Builds(Build::PokeReel(at)).giving(Given::Word(2)))
}

pub fn word_line(text: &[u8]) -> Result<Line, Fault>
    ensures { result ≡ word_line text.now }
{
    let (at, w, _) = numbers(text, 1, 2)?;
    Ok(Does::Builds(Build::PokeWord(at, w)).plain())
}

pub fn sum_line(text: &[u8]) -> Result<Line, Fault>
    ensures { result ≡ sum_line text.now }
{
    let k = argument(text, 1)?;
    Ok(Does::Builds(Build::FixSum(k)).plain())
}

pub fn record_line(text: &[u8]) -> Result<Line, Fault>
    ensures { result ≡ record_line text.now }
{
    if has_word(text, 1) {
        return Ok(Does::Builds(Build::Record).giving(Given::Word(1)));
    }
    Err(Fault::WordMissing)
}

pub fn made_line(text: &[u8]) -> Result<Line, Fault>
    ensures { result ≡ made_line text.now }
{
    let (n, seed, _) = numbers(text, 1, 2)?;
    Ok(Does::Builds(Build::Record).giving(Given::Made(n, seed)))
}
