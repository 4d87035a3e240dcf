// Moving a record's bytes to places in memory.
ghost use Rattle.std.specs.Prelude.{◌≡◌, ◌+◌, ◌*◌, ◌≤◌, ◌%◌, length, take, drop};
ghost use Rattle.lists.specs.Places.{placed};
ghost use Rattle.tape.specs.Numbers.{block_bytes, pieces_of};
ghost use Rattle.tape.specs.Bytes.{read_into, record_bytes};

use lists::scatter;
use tape::Geometry;

// Bytes `from` to `from + count` of the record of n bytes at block p go to the places from address a on, a piece at a time.
fn copy_out(
    reel: &[u8],
    p: usize,
    n: usize,
    from: usize,
    count: usize,
    mem: &mut [u8],
    a: usize,
    swb: bool,
)
    requires { (block_bytes * (p + pieces_of n) ≤ length reel.now) × (from + count ≤ n) × (a + count ≤ length mem.old) × (length mem.old % 2 ≡ 0) }
    ensures { mem.new ≡ placed swb mem.old a (take count (drop from (record_bytes reel.now p n))) }
{
    // Kept: a `for` over the pieces would cut each to the run at both ends, where two of them alone are cut.
    let mut done: usize = 0;
    while done < count {
        let i = from + done;
        let off = i % Geometry::DATA;
        let more = (Geometry::DATA - off).min(count - done);
        let start = Geometry::BLOCK * (p + i / Geometry::DATA) + Geometry::HEAD + off;
        let end = start + more;
        scatter(&reel[start..end], mem, a + done, swb);
        done += more;
    }
}

// What a Read of `count` bytes at `pointer` moves of the record of n bytes at block p.
pub fn read_record(
    reel: &[u8],
    p: usize,
    n: usize,
    reverse: bool,
    mem: &mut [u8],
    pointer: usize,
    count: usize,
    swb: bool,
)
    requires { (block_bytes * (p + pieces_of n) ≤ length reel.now) × (pointer + count ≤ length mem.old) × (length mem.old % 2 ≡ 0) }
    ensures { mem.new ≡ read_into reverse swb mem.old pointer count (record_bytes reel.now p n) }
{
    let moved = n.min(count);
    if reverse {
        copy_out(
            reel,
            p,
            n,
            n - moved,
            moved,
            mem,
            pointer + (count - moved),
            swb,
        );
    } else {
        copy_out(reel, p, n, 0, moved, mem, pointer, swb);
    }
}
