// Words of a line.
#![tactic(auto, using(script::proofs::Passing::word_length), unfolding(crate::specs::Starts::has_word))]

ghost use Rattle.std.specs.Prelude.{◌≡◌};
ghost use Rattle.script.specs.Words.{place_of, word_from};
ghost use Rattle.lines.specs.Starts.{has_word, named_in};

use script::{Fault, find_word, nth};

pub fn has_word(text: &[u8], k: usize) -> bool
    ensures { result ≡ has_word text.now k }
{
    !nth(text, k).is_empty()
}

// What word k of the line names, of some values in the order of their names.
// Kept: the names are one text, as the definitions `start_words` and `field_words` have them.
pub fn named<T: Copy>(names: &[u8], values: &[T], text: &[u8], k: usize) -> Result<T, Fault>
    ensures { result ≡ named_in values.now (place_of names.now (word_from text.now k)) }
{
    let place = find_word(names, text, k).ok_or(Fault::UnknownWord)?;
    values.get(place).copied().ok_or(Fault::UnknownWord)
}
