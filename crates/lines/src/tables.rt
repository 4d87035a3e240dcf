// Lines about the table beside the reel, with no call.
#![tactic(auto, unfolding(crate::specs::Tabling::index_line, crate::specs::Tabling::poke_table_line))]

ghost use Rattle.std.specs.Prelude.{◌≡◌};
ghost use Rattle.lines.specs.Tabling.{index_line, poke_table_line};

use crate::{Does, Given, Line, Table};
use script::{Fault, argument};

pub fn index_line(text: &[u8]) -> Result<Line, Fault>
    ensures { result ≡ index_line text.now }
{
    let n = argument(text, 1)?;
    Ok(Does::Tables(Table::Index(n)).plain())
}

pub fn poke_table_line(text: &[u8]) -> Result<Line, Fault>
    ensures { result ≡ poke_table_line text.now }
{
    let at = argument(text, 1)?;
    Ok(Does::Tables(Table::Poke(at)).giving(Given::Word(2)))
}
