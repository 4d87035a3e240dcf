// Numbers of four bytes, low byte first, in a slice of bytes.
ghost use Rattle.std.specs.Prelude.{◌≡◌, ◌+◌, ◌≤◌, ◌%◌, length};
ghost use Rattle.std.proofs.lemmas.List.Edits.{sets};
ghost use Rattle.lists.specs.Fours.{number_at, number_bytes, number_limit};

use crate::runs::{put_run, run_at};

// What four bytes hold of a number.
pub fn low(x: usize) -> u32
    ensures { result ≡ x % number_limit }
{
    (x % 4294967296) as u32
}

pub fn put_number(b: &mut [u8], at: usize, n: u32)
    requires { at + 4 ≤ length b.old }
    ensures { b.new ≡ sets b.old at (number_bytes n) }
{
    put_run(b, at, n.to_le_bytes());
}

pub fn number_at(b: &[u8], at: usize) -> u32
    requires { at + 4 ≤ length b.now }
    ensures { result ≡ number_at b.now at }
{
    u32::from_le_bytes(run_at(b, at))
}
