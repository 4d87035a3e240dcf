// Numbers: decimal, or hexadecimal behind 0x.
ghost use Rattle.std.specs.Prelude.{◌≡◌, ◌+◌, ◌<◌, IfSome};
ghost use Rattle.script.specs.Words.{word_from};
ghost use Rattle.script.specs.Numbers.{digit_of, joined, number_in, said, three_of, wanted_of};

use crate::Fault;
use crate::words::nth;

// A hexadecimal digit's value.
#[tactic(auto, unfolding(crate::specs::Numbers::digit_of))]
pub fn digit(b: u8) -> Option<u32>
    ensures is { result ≡ digit_of b }
    ensures low { IfSome result (λ d. d < 16) }
{
    char::from(b).to_digit(16)
}

// A number with one digit more.
fn more(value: usize, b: u8, base: usize) -> Result<usize, Fault>
    ensures { result ≡ joined base value (digit_of b) }
{
    let Some(d) = digit(b) else {
        return Err(Fault::NumberWrong);
    };
    let d = d as usize;
    if base <= d {
        return Err(Fault::NumberWrong);
    }
    let tens = value.checked_mul(base).ok_or(Fault::NumberTooLarge)?;
    tens.checked_add(d).ok_or(Fault::NumberTooLarge)
}

// The digits of a text in base 10 or 16.
fn digits(text: &[u8], base: usize) -> Result<usize, Fault>
    ensures { result ≡ said base 0 text.now }
{
    let mut value: usize = 0;
    for &b in text {
        value = more(value, b, base)?;
    }
    Ok(value)
}

pub fn number(text: &[u8]) -> Result<usize, Fault>
    ensures { result ≡ number_in text.now }
{
    if text.is_empty() {
        return Err(Fault::NumberMissing);
    }
    if (2 < text.len()) & text.starts_with(b"0x") {
        return digits(&text[2..], 16);
    }
    digits(text, 10)
}

// Word k of the line as a number.
pub fn argument(text: &[u8], k: usize) -> Result<usize, Fault>
    ensures { result ≡ number_in (word_from text.now k) }
{
    number(nth(text, k))
}

// 0 beyond the last word that is to be a number.
fn wanted(text: &[u8], k: usize, last: usize) -> Result<usize, Fault>
    ensures { result ≡ wanted_of text.now k last }
{
    if last < k {
        return Ok(0);
    }
    argument(text, k)
}

// Words `first` to `last` as numbers, three at most.
pub fn numbers(text: &[u8], first: usize, last: usize) -> Result<(usize, usize, usize), Fault>
    requires { first < 9 }
    ensures { result ≡ three_of (wanted_of text.now first last) (wanted_of text.now (first + 1) last) (wanted_of text.now (first + 2) last) }
{
    let a = wanted(text, first, last)?;
    let b = wanted(text, first + 1, last)?;
    let c = wanted(text, first + 2, last)?;
    Ok((a, b, c))
}
