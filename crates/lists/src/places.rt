// Runs of bytes between a slice and the places in memory that the paper names.
// Kept: that memory is even, and that a run lies in it, is asked of each call, here and above. C lends plain bytes, each call has its own run, and the same functions move a reel's blocks.
ghost use Rattle.std.specs.Prelude.{◌≡◌, ◌+◌, ◌*◌, ◌<◌, ◌≤◌, ◌%◌, true, length};
ghost use Rattle.std.proofs.lemmas.List.Edits.{sets};
ghost use Rattle.lists.specs.Places.{gathered, place, placed};

use crate::runs::{copy, put_run, run_at, swapped};

// Where the data byte of address a lies: with SWB the lowest bit is flipped.
pub fn place_of(swb: bool, a: usize) -> usize
    requires { a < 18446744073709551615 }
    ensures { result ≡ place swb a }
{
    if swb { a + 1 - 2 * (a % 2) } else { a }
}

// With SWB. A byte at an odd address goes first; from an even one on, 64 bytes at a time change their places by pairs, and the rest go one by one.
fn scatter_swapped(d: &[u8], mem: &mut [u8], a: usize)
    requires { (a + length d.now ≤ length mem.old) × (length mem.old % 2 ≡ 0) }
    ensures { mem.new ≡ placed true mem.old a d.now }
{
    let n = d.len();
    let lead = n.min(a % 2);
    if lead == 1 {
        mem[a - 1] = d[0];
    }
    let runs = (n - lead) / 64;
    for k in 0..runs {
        let i = lead + 64 * k;
        put_run(mem, a + i, swapped(run_at::<64>(d, i)));
    }
    for i in lead + 64 * runs..n {
        let at = place_of(true, a + i);
        mem[at] = d[i];
    }
}

// All of d goes to the places from address a on. An even memory holds the flipped place of each address it holds.
pub fn scatter(d: &[u8], mem: &mut [u8], a: usize, swb: bool)
    requires { (a + length d.now ≤ length mem.old) × (length mem.old % 2 ≡ 0) }
    ensures { mem.new ≡ placed swb mem.old a d.now }
{
    if swb {
        scatter_swapped(d, mem, a);
    } else {
        copy(d, 0, mem, a, d.len());
    }
}

fn gather_swapped(b: &mut [u8], mem: &[u8], a: usize)
    requires { (a + length b.old ≤ length mem.now) × (length mem.now % 2 ≡ 0) }
    ensures { b.new ≡ gathered true mem.now a (length b.old) }
{
    let n = b.len();
    let lead = n.min(a % 2);
    if lead == 1 {
        b[0] = mem[a - 1];
    }
    let runs = (n - lead) / 64;
    for k in 0..runs {
        let i = lead + 64 * k;
        put_run(b, i, swapped(run_at::<64>(mem, a + i)));
    }
    for i in lead + 64 * runs..n {
        let from = place_of(true, a + i);
        b[i] = mem[from];
    }
}

// The bytes at the places from address a on fill b.
pub fn gather(b: &mut [u8], mem: &[u8], a: usize, swb: bool)
    requires { (a + length b.old ≤ length mem.now) × (length mem.now % 2 ≡ 0) }
    ensures { b.new ≡ gathered swb mem.now a (length b.old) }
{
    if swb {
        gather_swapped(b, mem, a);
    } else {
        let n = b.len();
        copy(mem, a, b, 0, n);
    }
}
