// Numbers of four bytes, low byte first; the head is 31 of them.
ghost use Rattle.std.specs.Prelude.{◌≡◌, ◌+◌, ◌≤◌, length, drop};
ghost use Rattle.std.proofs.lemmas.List.Edits.{sets};
ghost use Rattle.entries.specs.Bytes.{numbers_bytes, head_count, head_length, head_numbers};

use lists::{number_at, put_number};

pub fn put_head(b: &mut [u8], at: usize, n: [u32; 31])
    requires { at + head_length ≤ length b.old }
    ensures { b.new ≡ sets b.old at (numbers_bytes n) }
{
    for i in 0..31 {
        put_number(b, at + 4 * i, n[i]);
    }
}

pub fn head_at(b: &[u8], at: usize) -> [u32; 31]
    requires { at + head_length ≤ length b.now }
    ensures { result ≡ head_numbers head_count (drop at b.now) }
{
    let mut n = [0; 31];
    for (i, x) in n.iter_mut().enumerate() {
        *x = number_at(b, at + 4 * i);
    }
    n
}
