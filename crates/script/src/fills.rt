// Bytes put into a lent slice.
ghost use Rattle.std.specs.Prelude.{◌≡◌, ◌+◌, All, length, None, Some};
ghost use Rattle.lists.specs.Pick.{pick};
ghost use Rattle.script.specs.Fills.{appended, copied, generated, hex_answer, hex_filled, holds, paired, wiped};
ghost use Rattle.script.specs.Numbers.{digit_of};

use crate::Fault;
use crate::reads::digit;

// A space of the size that its caller names.
pub fn zeros<const N: usize>() -> [u8; N]
    ensures room { length result ≡ N }
    ensures blank { All (λ x. x ≡ 0) result }
{
    [0u8; N]
}

// As much of `from` as `to` holds.
pub fn copy(to: &mut [u8], from: &[u8])
    ensures { to.new ≡ copied to.old from.now }
{
    let n = to.len().min(from.len());
    to[..n].copy_from_slice(&from[..n]);
}

// A line of which `filled` bytes are there gets more; the new count, if it holds them.
pub fn append(line: &mut [u8], filled: usize, part: &[u8]) -> Option<usize>
    ensures answer { result ≡ pick (holds line.old filled part.now) (Some (filled + length part.now)) None }
    ensures line { line.new ≡ appended line.old filled part.now }
{
    let end = filled.checked_add(part.len())?;
    if line.len() < end {
        return None;
    }
    line[filled..end].copy_from_slice(part);
    Some(end)
}

// Zeros from `from` to `to`, where those are places in order.
pub fn wipe(b: &mut [u8], from: usize, to: usize)
    ensures { b.new ≡ wiped b.old from to }
{
    if (from <= to) & (to <= b.len()) {
        b[from..to].fill(0);
    }
}

// b[i] = (seed + i * 7 + (i >> 8) * 13) & 255
pub fn generate(b: &mut [u8], seed: usize)
    ensures { b.new ≡ generated seed (length b.old) }
{
    let start = seed % 256;
    for (i, x) in b.iter_mut().enumerate() {
        *x = ((start + i % 256 * 7 + i / 256 % 256 * 13) % 256) as u8;
    }
}

// Two digits as a byte.
fn pair(hi: u8, lo: u8) -> Option<u8>
    ensures { result ≡ paired (digit_of hi) (digit_of lo) }
{
    Some((16 * digit(hi)? + digit(lo)?) as u8)
}

// The bytes that a word of hexadecimal digits gives, and how many.
pub fn hex_bytes(text: &[u8], out: &mut [u8]) -> Result<usize, Fault>
    ensures answer { result ≡ hex_answer text.now (length out.old) }
    ensures out { out.new ≡ hex_filled text.now out.old }
{
    if text.len() % 2 == 1 {
        return Err(Fault::HexWrong);
    }
    let n = text.len() / 2;
    if out.len() < n {
        return Err(Fault::BeyondBuffers);
    }
    for i in 0..n {
        out[i] = pair(text[2 * i], text[2 * i + 1]).ok_or(Fault::HexWrong)?;
    }
    Ok(n)
}
