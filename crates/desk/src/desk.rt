// All that the lines of a script change, besides the bytes of the buffers.
#![tactic(auto, unfolding(crate::specs::Desks::handed_by, crate::specs::Desks::sizes_beyond))]

ghost use Rattle.std.specs.Prelude.{◌≡◌};
ghost use Rattle.script.specs.Fills.{wiped};
ghost use Rattle.desk.specs.Desks.{cut_sizes, fresh_at, handed_of, next_line, sizes_beyond};

use lines::{Cuts, Sizes};
use script::wipe;
use worlds::Session;

#[derive(Clone, Copy, Default)]
pub struct Desk {
    pub session: Session,
    pub sizes: Sizes,
    // What the calls are handed where it is not the sizes.
    pub cuts: Option<Cuts>,
    // The block that the next object is laid at.
    pub cursor: usize,
    // The number of the line.
    pub line: usize,
}

// As a run starts.
pub fn fresh() -> Desk
    ensures { result ≡ fresh_at 0 }
{
    Desk::default()
}

// As a case starts.
pub fn cleared(d: Desk) -> Desk
    ensures { result ≡ fresh_at d.line }
{
    Desk {
        line: d.line,
        ..fresh()
    }
}

// What the cuts say, where the table is n bytes unless they say it.
pub fn cut_sizes(cuts: Cuts, n: usize) -> Sizes
    ensures { result ≡ cut_sizes cuts n }
{
    Sizes {
        memory: cuts.memory,
        reel: cuts.reel,
        table: cuts.table.unwrap_or(n),
        journal: cuts.journal,
    }
}

// The lengths that the calls are handed.
pub fn handed(d: Desk) -> Sizes
    ensures { result ≡ handed_of d }
{
    match d.cuts {
        Some(cuts) => cut_sizes(cuts, d.sizes.table),
        None => d.sizes,
    }
}

// Whether one of the sizes is more than there is room for.
// Kept: a derived order would go by the first that differs.
pub fn beyond(s: Sizes, room: Sizes) -> bool
    ensures { result ≡ sizes_beyond s room }
{
    (room.memory < s.memory)
        | (room.reel < s.reel)
        | (room.table < s.table)
        | (room.journal < s.journal)
}

// The next line starts.
pub fn next_line(d: Desk) -> Desk
    ensures { result ≡ next_line d }
{
    let line = if d.line < 1000000000000 {
        d.line + 1
    } else {
        d.line
    };
    Desk { line, ..d }
}

// Zeros from the sizes s to the sizes h, where h is more.
// Kept: four slices, here and in arranges.rt. Over a struct of slices that are lent to write, a function that hands it on whole, or cuts two of them in one call, is not proved.
pub fn trim(s: Sizes, h: Sizes, mem: &mut [u8], reel: &mut [u8], table: &mut [u8], jrnl: &mut [u8])
    ensures memory { mem.new ≡ wiped mem.old s.memory h.memory }
    ensures reel { reel.new ≡ wiped reel.old s.reel h.reel }
    ensures table { table.new ≡ wiped table.old s.table h.table }
    ensures journal { jrnl.new ≡ wiped jrnl.old s.journal h.journal }
{
    wipe(mem, s.memory, h.memory);
    wipe(reel, s.reel, h.reel);
    wipe(table, s.table, h.table);
    wipe(jrnl, s.journal, h.journal);
}
