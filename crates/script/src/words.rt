// Words: runs of bytes that are not blank.
ghost use Rattle.std.specs.Prelude.{◌≡◌, ◌≤◌, drop, length};
ghost use Rattle.script.specs.Words.{last_end, part, place_of, spanned, word_end, word_from, word_start};

// How many bytes at the front are blank, or are not.
// Kept: the flag is `spanned`'s, one definition for both.
fn pass(text: &[u8], blank: bool) -> usize
    ensures is { result ≡ spanned blank text.now }
    ensures within { result ≤ length text.now }
{
    let end = text.iter().position(|&x| (x < 33) != blank);
    end.unwrap_or(text.len())
}

// From the first word on.
fn from_word(text: &[u8]) -> &[u8]
    ensures { result.now ≡ drop (word_start text.now 0) text.now }
{
    &text[pass(text, true)..]
}

// What stands behind the first word.
fn beyond(text: &[u8]) -> &[u8]
    ensures { result.now ≡ drop (word_end text.now 0) text.now }
{
    let word = from_word(text);
    &word[pass(word, false)..]
}

// Where word k stands, counted from 0: its first place, and the one behind it. Both are the text's length where there is none.
pub fn span(text: &[u8], k: usize) -> (usize, usize)
    ensures start { result.0 ≡ word_start text.now k }
    ensures end { result.1 ≡ word_end text.now k }
    ensures within { (result.0 ≤ result.1) × (result.1 ≤ length text.now) }
{
    let mut rest = text;
    for _ in 0..k {
        // A line that may have any number of words asks for one far behind its last.
        if rest.is_empty() {
            return (text.len(), text.len());
        }
        rest = beyond(rest);
    }
    let word = from_word(rest);
    let start = text.len() - word.len();
    (start, start + pass(word, false))
}

// Word k, counted from 0; empty where there is none.
#[tactic(auto, unfolding(crate::specs::Words::word_from))]
pub fn nth(text: &[u8], k: usize) -> &[u8]
    ensures { result.now ≡ word_from text.now k }
{
    let (start, end) = span(text, k);
    &text[start..end]
}

// A line with no blanks around it.
pub fn trimmed(text: &[u8]) -> &[u8]
    ensures { result.now ≡ part text.now (word_start text.now 0) (last_end text.now) }
{
    let word = from_word(text);
    match word.iter().rposition(|&x| 32 < x) {
        Some(i) => &word[..i + 1],
        None => &[],
    }
}

// Which word of the list w is, counted from 0. Each turn passes a word.
pub fn place_in(list: &[u8], w: &[u8]) -> Option<usize>
    ensures { result ≡ place_of list.now w.now }
{
    let mut rest = list;
    for k in 0..list.len() {
        let word = from_word(rest);
        let end = pass(word, false);
        if &word[..end] == w {
            return Some(k);
        }
        rest = &word[end..];
    }
    None
}

// Which word of the list word k of the line is.
pub fn find_word(list: &[u8], text: &[u8], k: usize) -> Option<usize>
    ensures { result ≡ place_of list.now (word_from text.now k) }
{
    place_in(list, nth(text, k))
}
