// The requests that a script expects: they have to be those of this program.
#![tactic(auto, unfolding(crate::specs::Rules::held_by, crate::specs::Rules::rules_line, script::specs::Rules::own_rules))]

ghost use Rattle.std.specs.Prelude.{◌≡◌};
ghost use Rattle.lines.specs.Rules.{held_by, named, requests, rules_line, same_rules, unseen, within};

use crate::words::has_word;
use crate::{Does, Line};
use script::{Fault, argument};

// As many as document 02 has: a line names no more.
const REQUESTS: usize = 14;

fn names(text: &[u8], n: usize) -> bool
    ensures { result ≡ named text.now n requests }
{
    (1..REQUESTS + 1).any(|k| argument(text, k) == Ok(n))
}

// Requests that change no line of a script.
fn is_unseen(n: usize) -> bool
    ensures { result ≡ unseen n }
{
    matches!(n, 1 | 3 | 12 | 13)
}

fn is_held(text: &[u8], number: Result<usize, Fault>) -> bool
    ensures { result ≡ held_by text.now number }
{
    number.is_ok_and(|n| is_unseen(n) || names(text, n))
}

// Are all that line a names held by line b?
fn are_within(a: &[u8], b: &[u8]) -> bool
    ensures { result ≡ within a.now b.now requests }
{
    (1..REQUESTS + 1).all(|k| !has_word(a, k) || is_held(b, argument(a, k)))
}

fn are_same(a: &[u8], b: &[u8]) -> bool
    ensures { result ≡ same_rules a.now b.now }
{
    are_within(a, b) & are_within(b, a)
}

pub fn rules_line(text: &[u8]) -> Result<Line, Fault>
    ensures { result ≡ rules_line text.now }
{
    if are_same(text, b"rules 2 4 7 8") {
        return Ok(Does::Nothing.plain());
    }
    Err(Fault::OtherRules)
}
