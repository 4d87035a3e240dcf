// A line of output, made in a lent slice: each function answers where the next byte goes. What doesn't fit is left out.
// Kept: the place goes in and out as a number; a struct of both would be lent on, and want a clause on the slice and one on the place all the same.
ghost use Rattle.std.specs.Prelude.{[], ◌∷◌, ◌++◌, max, min, OnOk};
ghost use Rattle.std.specs.Io.KnownBytes.{Appends};
ghost use Rattle.script.specs.Prints.{Put, sent};
ghost use Rattle.script.specs.Spelling.{spelling};

use crate::fills::copy;
use std::io::{Result, Write};

pub fn put_bytes(out: &mut [u8], at: usize, b: &[u8]) -> usize
    ensures { Put out.old at b.now out.new result }
{
    if out.len() < at {
        return at;
    }
    copy(&mut out[at..], b);
    at + (out.len() - at).min(b.len())
}

pub fn put_byte(out: &mut [u8], at: usize, x: u8) -> usize
    ensures { Put out.old at (x ∷ []) out.new result }
{
    put_bytes(out, at, &[x])
}

pub fn put_decimal(out: &mut [u8], at: usize, n: usize) -> usize
    ensures { Put out.old at (spelling 10 1 n) out.new result }
{
    let mut text = [0u8; 20];
    let k = io::decimal(n as u64, &mut text);
    put_bytes(out, at, &text[..k])
}

pub fn put_hex(out: &mut [u8], at: usize, n: usize, width: usize) -> usize
    ensures { Put out.old at (spelling 16 (min (max width 1) 16) n) out.new result }
{
    let mut text = [0u8; 16];
    let k = io::hex(n as u64, width, &mut text);
    put_bytes(out, at, &text[..k])
}

pub fn put_labelled(out: &mut [u8], at: usize, label: &[u8], n: usize) -> usize
    ensures { Put out.old at (label.now ++ spelling 10 1 n) out.new result }
{
    let next = put_bytes(out, at, label);
    put_decimal(out, next, n)
}

// The first n bytes go to the writer. Of a file or a pipe no contract knows what it holds, so that they arrive there is the system's.
pub fn write_out<W: Write>(to: &mut W, out: &[u8], n: usize) -> Result<()>
    ensures { OnOk result (Appends (W.contents to.old) (W.contents to.new) (sent out.now n)) }
{
    if n <= out.len() {
        return to.write_all(&out[0..n]);
    }
    Ok(())
}
