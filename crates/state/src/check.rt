// Refusals 1, 2 and 3 of a step: the state's own numbers, then the lengths of what is lent.
ghost use Rattle.std.specs.Prelude.{◌≡◌};
ghost use Rattle.state.specs.Checks.{blocks_right, buffer_wrong, lengths_wrong, memory_right, refusal_of, registers_wrong, state_wrong, tape_wrong};

use crate::{Characteristics, Lengths, Refusal, Registers, Tape, Unit};
use tape::Geometry;

pub const MEMORY_LIMIT: usize = 262144;

pub const LAST_CLASS: usize = 6;

pub fn memory_right(n: usize) -> bool
    ensures { result ≡ memory_right n }
{
    (n % 2 == 0) & (2 <= n) & (n <= MEMORY_LIMIT)
}

pub fn blocks_right(b: usize) -> bool
    ensures { result ≡ blocks_right b }
{
    (1 <= b) & (b <= Geometry::CAPACITY_LIMIT)
}

fn tape_wrong(t: Tape, blocks: usize) -> bool
    ensures { result ≡ tape_wrong t blocks }
{
    (t.end < t.position) | (blocks < t.end)
}

fn registers_wrong(g: Registers) -> bool
    ensures { result ≡ registers_wrong g }
{
    (signals::POINTER_LIMIT <= g.pointer) | (LAST_CLASS < g.class)
}

// Both numbers may be made up, but their sum doesn't wrap: they have 32 bits.
pub fn buffer_wrong(c: Characteristics, memory: usize) -> bool
    ensures { result ≡ buffer_wrong c memory }
{
    let address = c.address as usize;
    let length = c.length as usize;
    (address % 2 == 1) | (length < signals::MESSAGE) | (memory < address + length)
}

fn lengths_wrong(l: Lengths) -> bool
    ensures { result ≡ lengths_wrong l }
{
    (!memory_right(l.memory)) | (!blocks_right(l.blocks))
}

// Refusal 1, but for the journal's numbers.
pub fn state_wrong(u: Unit) -> bool
    ensures { result ≡ state_wrong u }
{
    let t = u.tape;
    let g = u.registers;
    let c = u.characteristics;
    let l = u.lengths;
    tape_wrong(t, l.blocks)
        | (registers_wrong(g) | (((!g.nba) & buffer_wrong(c, l.memory)) | lengths_wrong(l)))
}

// The first of refusals 1, 2, 3 that holds. The lengths are in bytes.
pub fn unit_check(u: Unit, memory: usize, reel: usize) -> Result<(), Refusal>
    ensures { result ≡ refusal_of u memory reel }
{
    if state_wrong(u) {
        return Err(Refusal::State);
    }
    if memory != u.lengths.memory {
        return Err(Refusal::Memory);
    }
    let whole = (reel % Geometry::BLOCK == 0) & (reel / Geometry::BLOCK == u.lengths.blocks);
    if !whole {
        return Err(Refusal::Reel);
    }
    Ok(())
}
