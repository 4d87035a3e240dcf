// The sum for a block's check, eight bytes at a time: 65,536 is 1 modulo 65,535, so two words may be added as one number.
ghost use Rattle.std.specs.Prelude.{◌≡◌, ◌+◌, ◌*◌, ◌%◌, ◌≤◌, ◌<◌, eqb, length, take};
ghost use Rattle.lists.specs.Words.{word_sum};
ghost use Rattle.tape.specs.Numbers.{block_bytes, check_modulus, summed_bytes};
ghost use Rattle.block.specs.Sums.{long_sum};

use lists::{number_at, word_sum};
use tape::Geometry;

// The runs of eight bytes, two numbers each.
fn long_sum(b: &[u8]) -> usize
    requires { (length b.now % 8 ≡ 0) × (length b.now ≤ block_bytes) }
    ensures is { result ≡ long_sum b.now }
    ensures low { result ≤ 1073741824 * length b.now }
{
    let mut sum: usize = 0;
    for j in 0..b.len() / 8 {
        sum += number_at(b, 8 * j) as usize + number_at(b, 8 * j + 4) as usize;
    }
    sum
}

// The sum of the words as far as the check and the padding ask: modulo 65,535, and whether it is 0.
pub fn check_sum(b: &[u8]) -> usize
    requires { (length b.now % 2 ≡ 0) × (length b.now ≤ block_bytes) }
    ensures same { result % check_modulus ≡ word_sum b.now % check_modulus }
    ensures none { eqb result 0 ≡ eqb (word_sum b.now) 0 }
    ensures low { result ≤ 1099511627776 }
{
    let cut = 8 * (b.len() / 8);
    long_sum(&b[..cut]) + word_sum(&b[cut..], b.len() % 8 / 2)
}

// The check of a block's words before it.
pub fn check_word(b: &[u8]) -> usize
    requires { length b.now ≡ block_bytes }
    ensures { result ≡ word_sum (take summed_bytes b.now) % check_modulus }
{
    check_sum(&b[..Geometry::SUMMED]) % Geometry::CHECK_MODULUS
}
