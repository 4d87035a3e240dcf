// What a line prints. No contract here says what is written.
ghost use Rattle.std.specs.Prelude.{◌≡◌, ◌*◌, min};

use crate::buffers::{Buffers, front};
use desk::Said;
use lines::Sizes;
use results::{Told, put_complaint, put_result};
use script::{Fault, crc, trimmed, write_out, zeros};
use std::io::{self, Write};

// More than any line that is printed.
const PRINTED: usize = 1000;

// A line with no blanks around it.
fn print_line<W: Write>(to: &mut W, text: &[u8]) -> io::Result<()> {
    to.write_all(trimmed(text))?;
    to.write_all(b"\n")
}

pub(crate) fn print_complaint<W: Write>(to: &mut W, line: usize, f: Fault) -> io::Result<()> {
    let mut out: [u8; PRINTED] = zeros();
    let n = put_complaint(&mut out, line, f);
    write_out(to, &out, n)
}

// The used part of a table of n bytes: eight for each object, or all of it.
fn used_bytes(objects: usize, n: usize) -> usize
    ensures { result ≡ min (8 * objects) n }
{
    objects.saturating_mul(8).min(n)
}

// The result line over as much of memory, reel and table as the sizes say, and of the table only what is in use.
fn print_result<W: Write>(
    to: &mut W,
    t: Told,
    sizes: Sizes,
    buffers: &Buffers,
    sums: &[usize; 256],
) -> io::Result<()> {
    let used = used_bytes(t.session.objects, sizes.table);
    let mut out: [u8; PRINTED] = zeros();
    let n = put_result(
        &mut out,
        t,
        crc(front(&buffers.memory, sizes.memory), sums),
        crc(front(&buffers.reel, sizes.reel), sums),
        crc(front(&buffers.table, used), sums),
    );
    write_out(to, &out, n)
}

// What a line with this text has printed.
pub(crate) fn print<W: Write>(
    to: &mut W,
    said: Said,
    text: &[u8],
    sizes: Sizes,
    buffers: &Buffers,
    sums: &[usize; 256],
) -> io::Result<()> {
    match said {
        Said::Nothing => Ok(()),
        Said::Itself => print_line(to, text),
        Said::Result(t) => print_result(to, t, sizes, buffers, sums),
    }
}
