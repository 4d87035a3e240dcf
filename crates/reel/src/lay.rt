// Laying objects: only the new object's blocks change.
// Kept: that the object's blocks lie on the reel is asked of each call, for its own place; a record's length goes beside memory, which is longer.
ghost use Rattle.std.specs.Prelude.{◌≡◌, ◌+◌, ◌*◌, ◌≤◌, ◌<◌, ◌%◌, [], length};
ghost use Rattle.std.proofs.lemmas.List.Edits.{sets};
ghost use Rattle.lists.specs.Places.{gathered};
ghost use Rattle.lists.specs.Words.{word_limit};
ghost use Rattle.tape.specs.Numbers.{block_bytes, data_bytes, pieces_of};
ghost use Rattle.tape.specs.Layout.{block_of};
ghost use Rattle.tape.specs.Objects.{Object, image_of, piece_of};

use block::lay_block;
use tape::Geometry;

// A block with no data: a mark or a gap.
fn lay_bare(reel: &mut [u8], p: usize, k: usize)
    requires { (block_bytes * (p + 1) ≤ length reel.old) × (k < word_limit) }
    ensures { reel.new ≡ sets reel.old (block_bytes * p) (block_of k 0 0 []) }
{
    let at = Geometry::BLOCK * p;
    let end = at + Geometry::BLOCK;
    lay_block(&mut reel[at..end], k, 0, 0, b"", 0, 0, false);
}

pub fn lay_mark(reel: &mut [u8], p: usize)
    requires { block_bytes * (p + 1) ≤ length reel.old }
    ensures { reel.new ≡ sets reel.old (block_bytes * p) (image_of Object.mark) }
{
    lay_bare(reel, p, tape::MARK_KIND);
}

pub fn lay_gap(reel: &mut [u8], p: usize)
    requires { block_bytes * (p + 1) ≤ length reel.old }
    ensures { reel.new ≡ sets reel.old (block_bytes * p) (image_of Object.gap) }
{
    lay_bare(reel, p, tape::GAP_KIND);
}

// Piece i of the record of n bytes at the places from address a on, for which there is room at block p: it goes to block p + i.
fn lay_piece(reel: &mut [u8], p: usize, n: usize, i: usize, mem: &[u8], a: usize, swb: bool)
    requires { (block_bytes * (p + pieces_of n) ≤ length reel.old) × (data_bytes * i < n) × (n < word_limit) × (a + n ≤ length mem.now) × (length mem.now % 2 ≡ 0) }
    ensures { reel.new ≡ sets reel.old (block_bytes * (p + i)) (piece_of (gathered swb mem.now a n) i) }
{
    let at = Geometry::BLOCK * (p + i);
    let end = at + Geometry::BLOCK;
    let from = Geometry::DATA * i;
    let used = (n - from).min(Geometry::DATA);
    lay_block(
        &mut reel[at..end],
        tape::PIECE_KIND,
        n,
        i,
        mem,
        a + from,
        used,
        swb,
    );
}

// The record of the n bytes at the places from address a on, laid at block p.
pub fn lay_record(reel: &mut [u8], p: usize, mem: &[u8], a: usize, n: usize, swb: bool)
    requires { (block_bytes * (p + pieces_of n) ≤ length reel.old) × (n < word_limit) × (a + n ≤ length mem.now) × (length mem.now % 2 ≡ 0) }
    ensures { reel.new ≡ sets reel.old (block_bytes * p) (image_of (Object.record_of (gathered swb mem.now a n))) }
{
    let m = tape::pieces(n);
    for i in 0..m {
        lay_piece(reel, p, n, i, mem, a, swb);
    }
}
