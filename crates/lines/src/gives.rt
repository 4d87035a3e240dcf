// The bytes that a line gives.
#![tactic(auto, using(crate::proofs::Made::made_done), unfolding(crate::specs::Gives::made_answer, crate::specs::Gives::made_filled, crate::specs::Gives::given_answer, crate::specs::Gives::given_filled))]

ghost use Rattle.std.specs.Prelude.{◌≡◌, length};
ghost use Rattle.lines.specs.Gives.{given_answer, given_filled, made_answer, made_filled};

use crate::Given;
use script::{Fault, generate, hex_bytes, nth};

// The first n bytes of data made from a seed.
fn bytes_made(n: usize, seed: usize, data: &mut [u8]) -> Result<usize, Fault>
    ensures answer { result ≡ made_answer n (length «data».old) }
    ensures filled { «data».new ≡ made_filled n seed «data».old }
{
    if data.len() < n {
        return Err(Fault::BeyondBuffers);
    }
    generate(&mut data[..n], seed);
    Ok(n)
}

// The bytes that a line gives go into data; how many.
pub fn fill(g: Given, text: &[u8], data: &mut [u8]) -> Result<usize, Fault>
    ensures answer { result ≡ given_answer g text.now (length «data».old) }
    ensures filled { «data».new ≡ given_filled g text.now «data».old }
{
    match g {
        Given::Nothing => Ok(0),
        Given::Word(k) => hex_bytes(nth(text, k), data),
        Given::Made(n, seed) => bytes_made(n, seed, data),
    }
}
