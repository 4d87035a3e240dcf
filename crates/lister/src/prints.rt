// The listing's lines, made in a lent buffer. Which they are is decided by `reel::examine` and `reel::pass`; here they only get their letters.
ghost use Rattle.std.specs.Prelude.{◌≡◌, [], ◌∷◌, ◌++◌, length};
ghost use Rattle.std.proofs.lemmas.List.Edits.{sets};
ghost use Rattle.script.specs.Prints.{Put};
ghost use Rattle.lister.specs.Lines.{bad_line, decimal, record_line};
ghost use Rattle.lister.specs.Listed.{lines_from, listed, met_line, met_next};

use script::{put_byte, put_bytes, put_labelled};
use tape::{Damage, ImageFault, Met};

// More than the longest listing.
pub const LISTING_LIMIT: usize = 18000;

// A letter, a blank, a number and a line end; where the next byte goes.
fn put_line(out: &mut [u8], at: usize, label: &[u8], k: usize) -> usize
    ensures { Put out.old at (label.now ++ (decimal k ++ (10 ∷ []))) out.new result }
{
    let next = put_labelled(out, at, label, k);
    put_bytes(out, next, b"\n")
}

// A record: its first block and its length.
fn put_record(out: &mut [u8], at: usize, p: usize, n: usize) -> usize
    ensures { Put out.old at (record_line p n) out.new result }
{
    let next = put_labelled(out, at, b"R ", p);
    put_line(out, next, b" ", n)
}

// The line of what is met at block p.
fn put_met(out: &mut [u8], at: usize, p: usize, m: Result<Met, Damage>) -> usize
    ensures { Put out.old at (met_line p m) out.new result }
{
    match m {
        Ok(Met::Record(n, _)) => put_record(out, at, p, n),
        Ok(Met::Mark(_)) => put_line(out, at, b"M ", p),
        Ok(Met::Gap(_)) => put_line(out, at, b"G ", p),
        Ok(Met::Nothing) => at,
        Err(_) => at,
    }
}

fn next_of(m: Result<Met, Damage>, e: usize) -> usize
    ensures { result ≡ met_next e m }
{
    match m {
        Ok(Met::Record(_, q)) => q,
        Ok(Met::Mark(q)) => q,
        Ok(Met::Gap(q)) => q,
        Ok(Met::Nothing) => e,
        Err(_) => e,
    }
}

// A line for each object of a whole image. Each takes a block or more, so e turns are enough.
fn put_objects(out: &mut [u8], image: &[u8], e: usize) -> usize
    ensures { Put out.old 0 (lines_from e image.now 0 e) out.new result }
{
    let mut at: usize = 0;
    let mut p: usize = 0;
    for _ in 0..e {
        let m = reel::pass(image, false, p, e);
        at = put_met(out, at, p, m);
        p = next_of(m, e);
    }
    at
}

// A bad block: its number, and the letter of what is wrong with it.
fn put_bad(out: &mut [u8], bad: Damage) -> usize
    ensures { Put out.old 0 (bad_line bad.fault bad.block) out.new result }
{
    let at1 = put_labelled(out, 0, b"X ", bad.block);
    let at2 = put_bytes(out, at1, b" ");
    let at3 = put_byte(out, at2, tape::letter(bad.fault));
    put_bytes(out, at3, b"\n")
}

fn put_listing(out: &mut [u8], image: &[u8]) -> usize
    ensures { Put out.old 0 (listed image.now) out.new result }
{
    match reel::examine(image) {
        Err(ImageFault::TooLong) => put_bytes(out, 0, b"L\n"),
        Err(ImageFault::NotWhole) => put_bytes(out, 0, b"S\n"),
        Err(ImageFault::Bad(bad)) => put_bad(out, bad),
        Ok(e) => {
            let at = put_objects(out, image, e);
            put_line(out, at, b"E ", e)
        }
    }
}

// The listing of an image, at the start of the buffer; how many bytes it has.
// Kept: `stored` says that the rest of the buffer stays, of the buffer after the call, so no slice of it is handed out.
pub fn lines(image: &[u8], out: &mut [u8; LISTING_LIMIT]) -> usize
    ensures stored { out.new ≡ sets out.old 0 (listed image.now) }
    ensures told { result ≡ length (listed image.now) }
{
    put_listing(out, image)
}
