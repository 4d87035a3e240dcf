// Laying one block: its data bytes go from memory straight into their place.
ghost use Rattle.std.specs.Prelude.{◌≡◌, ◌+◌, ◌%◌, ◌<◌, ◌≤◌, length};
ghost use Rattle.lists.specs.Places.{gathered};
ghost use Rattle.lists.specs.Words.{word_limit};
ghost use Rattle.tape.specs.Numbers.{block_bytes, data_bytes};
ghost use Rattle.tape.specs.Layout.{block_of};

use crate::sum::check_word;
use lists::{gather, put_word};
use tape::Geometry;

// The block of kind k, with n and i, whose data are the `used` bytes at the places from address a on.
pub fn lay_block(
    b: &mut [u8],
    k: usize,
    n: usize,
    i: usize,
    mem: &[u8],
    a: usize,
    used: usize,
    swb: bool,
)
    requires { (length b.old ≡ block_bytes) × (k < word_limit) × (n < word_limit) × (i < word_limit) × (used ≤ data_bytes) × (a + used ≤ length mem.now) × (length mem.now % 2 ≡ 0) }
    ensures { b.new ≡ block_of k n i (gathered swb mem.now a used) }
{
    put_word(b, 0, k);
    put_word(b, 2, n);
    put_word(b, 4, i);
    let pad = Geometry::HEAD + used;
    gather(&mut b[Geometry::HEAD..pad], mem, a, swb);
    b[pad..Geometry::SUMMED].fill(0);
    let check = check_word(b);
    put_word(b, Geometry::SUMMED, check);
}
