// A row of transports over one coupler: a record taken out of it as a session and put back, and the refusals that a call over the row makes first.
ghost use Rattle.std.specs.Prelude.{◌≡◌};
ghost use Rattle.std.specs.List.{list_any};
ghost use Rattle.worlds.specs.Rows.{absent_in, coupler_checked, coupler_of, coupler_wrong, no_transport, reel_seat_wrong, row_checked, session_over, state_seat_wrong, standing_in, transport_of, unit_over};

use crate::{Coupler, JOURNAL_LIMIT, Seat, Session, Transport};
use entries::TRANSPORTS;
use state::{Lengths, Refusal, Unit};
use tape::Geometry;

// 12: "a unit not present".
pub fn absent(n: usize, k: usize) -> bool
    ensures { result ≡ absent_in n k }
{
    (n <= k) | (TRANSPORTS <= k)
}

fn unit_over(t: Transport, memory: usize) -> Unit
    ensures { result ≡ unit_over memory t }
{
    Unit {
        tape: t.tape,
        registers: t.registers,
        panel: t.panel,
        attention: t.attention,
        characteristics: t.characteristics,
        lengths: Lengths {
            memory,
            blocks: t.blocks,
        },
    }
}

// The record of a transport taken out, with what it shares.
pub fn session_over(t: Transport, c: Coupler) -> Session
    ensures { result ≡ session_over c t }
{
    Session {
        unit: unit_over(t, c.memory),
        objects: t.objects,
        used: c.used,
        journal: c.journal,
    }
}

// What is put back: the record, and what it shares.
// Kept: no `From`, since each is a part of a session, and `session_over` takes both.
pub fn transport_of(s: Session) -> Transport
    ensures { result ≡ transport_of s }
{
    let u = s.unit;
    Transport {
        tape: u.tape,
        registers: u.registers,
        panel: u.panel,
        attention: u.attention,
        characteristics: u.characteristics,
        blocks: u.lengths.blocks,
        objects: s.objects,
    }
}

pub fn coupler_of(s: Session) -> Coupler
    ensures { result ≡ coupler_of s }
{
    Coupler {
        used: s.used,
        memory: s.unit.lengths.memory,
        journal: s.journal,
    }
}

// The record of a transport that was never mounted: all 0.
pub fn no_transport() -> Transport
    ensures { result ≡ no_transport }
{
    Transport::default()
}

// Refusal 1 of what is shared.
fn coupler_wrong(c: Coupler) -> bool
    ensures { result ≡ coupler_wrong c }
{
    (!state::memory_right(c.memory)) | ((c.journal < c.used) | (JOURNAL_LIMIT < c.journal))
}

// Refusals 1, 2 and 4 of a call of no transport.
pub fn coupler_check(c: Coupler, memory: usize, journal: usize) -> Result<(), Refusal>
    ensures { result ≡ coupler_checked c memory journal }
{
    if coupler_wrong(c) {
        return Err(Refusal::State);
    }
    if memory != c.memory {
        return Err(Refusal::Memory);
    }
    if journal != c.journal {
        return Err(Refusal::Journal);
    }
    Ok(())
}

// Of a transport that is mounted, refusal 1, and 3; one that is not is passed over.
fn state_seat_wrong(s: Seat, memory: usize) -> bool
    ensures { result ≡ state_seat_wrong memory s }
{
    let t = s.transport;
    (t.blocks != 0) & state::state_wrong(unit_over(t, memory))
}

fn reel_seat_wrong(s: Seat) -> bool
    ensures { result ≡ reel_seat_wrong s }
{
    let t = s.transport;
    let whole = (s.reel % Geometry::BLOCK == 0) & (s.reel / Geometry::BLOCK == t.blocks);
    (t.blocks != 0) & !whole
}

fn states_wrong(seats: &[Seat], memory: usize) -> bool
    ensures { result ≡ list_any (state_seat_wrong memory) seats.now }
{
    seats.iter().any(|s| state_seat_wrong(*s, memory))
}

fn reels_wrong(seats: &[Seat]) -> bool
    ensures { result ≡ list_any reel_seat_wrong seats.now }
{
    seats.iter().any(|s| reel_seat_wrong(*s))
}

// Refusals 1 to 4 of a step back over a row.
pub fn row_check(c: Coupler, seats: &[Seat], memory: usize, journal: usize) -> Result<(), Refusal>
    ensures { result ≡ row_checked c seats.now memory journal }
{
    if coupler_wrong(c) | states_wrong(seats, c.memory) {
        return Err(Refusal::State);
    }
    if memory != c.memory {
        return Err(Refusal::Memory);
    }
    if reels_wrong(seats) {
        return Err(Refusal::Reel);
    }
    if journal != c.journal {
        return Err(Refusal::Journal);
    }
    Ok(())
}

// Is transport k present in the row, and mounted?
pub fn standing(seats: &[Seat], k: usize) -> bool
    ensures { result ≡ standing_in seats.now k }
{
    !absent(seats.len(), k) && seats[k].transport.blocks != 0
}
