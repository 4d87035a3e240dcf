// Little-endian words in a slice of bytes.
ghost use Rattle.std.specs.Prelude.{◌≡◌, ◌+◌, ◌-◌, ◌*◌, ◌<◌, ◌≤◌, length, take};
ghost use Rattle.std.proofs.lemmas.List.Edits.{sets};
ghost use Rattle.lists.specs.Words.{word_at, word_bytes, word_limit, word_sum};

use crate::runs::{put_run, run_at};

pub fn word(b: &[u8], at: usize) -> usize
    requires { at + 1 < length b.now }
    ensures is { result ≡ word_at b.now at }
    ensures low { result < word_limit }
{
    usize::from(u16::from_le_bytes(run_at(b, at)))
}

pub fn put_word(b: &mut [u8], at: usize, w: usize)
    requires { (at + 1 < length b.old) × (w < word_limit) }
    ensures { b.new ≡ sets b.old at (word_bytes w) }
{
    put_run(b, at, (w as u16).to_le_bytes());
}

// The sum of the first n words, in one pass and with no remainder taken on the way.
// Kept: its contract counts words, of a slice that may go on.
pub fn word_sum(b: &[u8], n: usize) -> usize
    requires { (2 * n ≤ length b.now) × (n ≤ word_limit) }
    ensures is { result ≡ word_sum (take (2 * n) b.now) }
    ensures low { result ≤ (word_limit - 1) * n }
{
    let mut sum: usize = 0;
    for j in 0..n {
        sum += word(b, 2 * j);
    }
    sum
}
