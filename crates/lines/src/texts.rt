// A line by its words.
#![tactic(auto, unfolding(crate::specs::Lines::line_by, crate::specs::Lines::line_from, crate::specs::Lines::line_of))]

ghost use Rattle.std.specs.Prelude.{◌≡◌};
ghost use Rattle.lines.specs.Lines.{line_by, line_of};

use crate::arranges::{lens_line, set_line, sizes_line};
use crate::builds::{made_line, poke_line, poke_reel_line, record_line, sum_line, word_line};
use crate::calls::{host_line, hostn_line, mount_line, op_line, reg_line, tsdb_line, tssr_line};
use crate::makes::asks;
use crate::rules::rules_line;
use crate::tables::{index_line, poke_table_line};
use crate::verbs::Verb;
use crate::words::has_word;
use crate::{Arrange, Ask, Build, Call, Does, Given, Line};
use script::Fault;

// The line by its first word.
fn line_by(text: &[u8], verb: Verb, cursor: usize) -> Result<Line, Fault>
    ensures { result ≡ line_by text.now verb cursor }
{
    match verb {
        Verb::Case => Ok(Does::Arranges(Arrange::Case).plain()),
        Verb::Sizes => sizes_line(text),
        Verb::Lens => lens_line(text),
        Verb::Set => set_line(text),
        Verb::Poke => poke_line(text),
        Verb::Word => word_line(text),
        Verb::PokeReel => poke_reel_line(text),
        Verb::FixSum => sum_line(text),
        Verb::Record => record_line(text),
        Verb::Made => made_line(text),
        Verb::Mark => Ok(Does::Builds(Build::Mark).plain()),
        Verb::Gap => Ok(Does::Builds(Build::Gap).plain()),
        Verb::Mount => mount_line(text, cursor),
        Verb::Tsdb => tsdb_line(text),
        Verb::Tssr => tssr_line(text),
        Verb::Reg => reg_line(text),
        Verb::Op => op_line(text),
        Verb::Host => host_line(text),
        Verb::HostMade => hostn_line(text),
        Verb::Advance => Ok(asks(Ask::Advance, Given::Nothing)),
        Verb::Back => Ok(Does::Calls(Call::StepBack).plain()),
        Verb::Rules => rules_line(text),
        Verb::Index => index_line(text),
        Verb::PokeTable => poke_table_line(text),
    }
}

// A line with no comment, while the cursor is at that block.
pub fn line_of(text: &[u8], cursor: usize) -> Result<Line, Fault>
    ensures { result ≡ line_of text.now cursor }
{
    if !has_word(text, 0) {
        return Ok(Does::Nothing.plain());
    }
    let verb = Verb::of(text)?;
    if has_word(text, verb.most_words()) {
        return Err(Fault::ExtraWord);
    }
    line_by(text, verb, cursor)
}
