// The one encoding of an entry's head: 31 numbers, and back.
ghost use Rattle.std.specs.Prelude.{◌≡◌, ◌≤◌};
ghost use Rattle.touched.specs.Touches.{place_below};
ghost use Rattle.entries.specs.Numbers.{entry_of, flags_right, numbers_of, state_numbers, touched_of, unit_in};

use crate::Entry;
use lists::low;
use state::{Attention, Characteristics, Lengths, Panel, Registers, Tape, Unit};
use touched::Touched;

// The state's numbers, but for the lengths that a mount takes: an entry's head and a unit's record begin with them.
pub fn state_numbers(u: Unit) -> [u32; 19]
    ensures { result ≡ state_numbers u }
{
    [
        low(u.tape.position),
        low(u.tape.end),
        low(u.registers.pointer),
        low(u.registers.class),
        u32::from(u.registers.rmr),
        u32::from(u.registers.nxm),
        u32::from(u.registers.nba),
        u32::from(u.registers.ssr),
        u32::from(u.panel.online),
        u32::from(u.panel.locked),
        u32::from(u.panel.vck),
        u32::from(u.attention.unit_owns),
        u32::from(u.attention.pending),
        u32::from(u.attention.release_ie),
        u.characteristics.address,
        u.characteristics.length,
        u32::from(u.characteristics.eai),
        u32::from(u.characteristics.ess),
        u32::from(u.characteristics.enb),
    ]
}

pub fn numbers_of(e: Entry) -> [u32; 31]
    ensures { result ≡ numbers_of e }
{
    let t = e.touched;
    let mut n = [0; 31];
    n[..19].copy_from_slice(&state_numbers(e.unit));
    n[19..].copy_from_slice(&[
        low(e.unit.lengths.memory),
        low(e.unit.lengths.blocks),
        low(t.data_at),
        low(t.data_length),
        u32::from(t.swb),
        low(t.message_at),
        low(t.message_length),
        low(t.reel_at),
        low(t.reel_blocks),
        low(e.objects),
        t.places,
        low(e.transport),
    ]);
    n
}

// The unit whose state's numbers come first in n.
pub fn unit_in<const N: usize>(n: [u32; N], lengths: Lengths) -> Unit
    requires { 19 ≤ N }
    ensures { result ≡ unit_in n.entry lengths }
{
    Unit {
        tape: Tape {
            position: n[0] as usize,
            end: n[1] as usize,
        },
        registers: Registers {
            pointer: n[2] as usize,
            class: n[3] as usize,
            rmr: n[4] != 0,
            nxm: n[5] != 0,
            nba: n[6] != 0,
            ssr: n[7] != 0,
        },
        panel: Panel {
            online: n[8] != 0,
            locked: n[9] != 0,
            vck: n[10] != 0,
        },
        attention: Attention {
            unit_owns: n[11] != 0,
            pending: n[12] != 0,
            release_ie: n[13] != 0,
        },
        characteristics: Characteristics {
            address: n[14],
            length: n[15],
            eai: n[16] != 0,
            ess: n[17] != 0,
            enb: n[18] != 0,
        },
        lengths,
    }
}

// Whether the flags among the state's numbers are 0 or 1.
// Kept: as two `iter().all` an idle advance takes 208 instructions and not 196, where plain C takes 148.
pub fn flags_right<const N: usize>(n: [u32; N]) -> bool
    requires { 19 ≤ N }
    ensures { result ≡ flags_right n.entry }
{
    let registers = (n[4] < 2) & ((n[5] < 2) & ((n[6] < 2) & (n[7] < 2)));
    let panel = (n[8] < 2) & ((n[9] < 2) & (n[10] < 2));
    let attention = (n[11] < 2) & ((n[12] < 2) & (n[13] < 2));
    let characteristics = (n[16] < 2) & ((n[17] < 2) & (n[18] < 2));
    registers & panel & attention & characteristics
}

// The first of f places that end below the place `top`; with more than that, place 0.
fn place_below(top: usize, f: u32) -> usize
    ensures { result ≡ place_below top f }
{
    if f == 0 {
        0
    } else {
        top.saturating_sub(f as usize)
    }
}

fn touched_of(n: [u32; 31], top: usize) -> Touched
    ensures { result ≡ touched_of n top }
{
    Touched {
        data_at: n[21] as usize,
        data_length: n[22] as usize,
        swb: n[23] != 0,
        message_at: n[24] as usize,
        message_length: n[25] as usize,
        reel_at: n[26] as usize,
        reel_blocks: n[27] as usize,
        place_at: place_below(top, n[29]),
        places: n[29],
    }
}

// The entry with this head, of a step that left so many used places of the table.
pub fn entry_of(n: [u32; 31], top: usize) -> Entry
    ensures { result ≡ entry_of n top }
{
    let lengths = Lengths {
        memory: n[19] as usize,
        blocks: n[20] as usize,
    };
    Entry {
        unit: unit_in(n, lengths),
        objects: n[28] as usize,
        touched: touched_of(n, top),
        transport: n[30] as usize,
    }
}
