// The listing of a reel image. What it prints is made in a lent buffer, and proved there; a thin write goes on top.
#![tactic(auto)]

mod prints;

ghost use Rattle.std.specs.Prelude.{◌≡◌, ◌≤◌, length, take, IfOk, IfSome, OnOk};
ghost use Rattle.std.specs.Io.KnownBytes.{Appends};
ghost use Rattle.lister.specs.Listed.{listed};

use prints::LISTING_LIMIT;
pub use prints::lines;
use script::zeros;
use std::io::{Read, Result, Write};
use tape::Geometry;

// Prints the listing of an image. Of a file or a pipe no contract knows what it holds, so that the bytes arrive there is the system's.
pub fn list<W: Write>(to: &mut W, image: &[u8]) -> Result<()>
    ensures { OnOk result (Appends (W.contents to.old) (W.contents to.new) (listed image.now)) }
{
    let mut out: [u8; LISTING_LIMIT] = zeros();
    let n = lines(image, &mut out);
    to.write_all(&out[..n])
}

// Fills the buffer from its start until it is full or the input ends; how many bytes it got.
// Kept: each read brings as many as it likes, so no iterator counts them, and `read_exact` says nothing of an input that ends early.
fn read_full<R: Read>(from: &mut R, buffer: &mut [u8]) -> Result<usize>
    ensures within { IfOk result (λ n. n ≤ length buffer.new) }
    ensures whole { length buffer.new ≡ length buffer.old }
    ensures bytes { IfOk result (λ n. IfSome (R.remaining from.old) (λ xs. take n buffer.new ≡ take (length buffer.old) xs)) }
{
    let mut got: usize = 0;
    while got < buffer.len() {
        let n = from.read(&mut buffer[got..])?;
        if n == 0 {
            return Ok(got);
        }
        got += n;
    }
    Ok(got)
}

// Prints the listing of what a file or a pipe holds; what a read brings from there is the system's too.
pub fn list_file<R: Read, W: Write>(from: &mut R, to: &mut W) -> Result<()>
    ensures { OnOk result (IfSome (R.remaining from.old) (λ xs. Appends (W.contents to.old) (W.contents to.new) (listed xs))) }
{
    // One byte more than the longest image, so that a longer one is seen.
    let mut buffer: [u8; Geometry::IMAGE_LIMIT + 1] = zeros();
    let got = read_full(from, &mut buffer)?;
    list(to, &buffer[..got])
}
