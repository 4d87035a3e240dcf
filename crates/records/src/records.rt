// A unit's record: 21 numbers, one for each field of a transport. A transport has one record, and a record whose flags are not 0 or 1 is no transport's.
ghost use Rattle.std.specs.Prelude.{◌≡◌};
ghost use Rattle.records.specs.Records.{is_record, numbers_of, transport_in};

use entries::{flags_right, state_numbers, unit_in};
use lists::low;
use state::Lengths;
use worlds::{Coupler, Session, Transport, session_over, transport_of};

#[repr(C)]
#[derive(Clone, Copy)]
pub struct UnitRecord {
    pub numbers: [u32; 21],
}

pub fn record_of(t: Transport) -> UnitRecord
    ensures { result.numbers ≡ numbers_of t }
{
    let unit = session_over(t, Coupler::default()).unit;
    let mut numbers = [0; 21];
    numbers[..19].copy_from_slice(&state_numbers(unit));
    numbers[19..].copy_from_slice(&[low(t.blocks), low(t.objects)]);
    UnitRecord { numbers }
}

// What a record is read as; every record is read as some transport.
#[tactic(auto, unfolding(crate::specs::Records::transport_in, entries::specs::Numbers::unit_in))]
pub fn transport_in(r: UnitRecord) -> Transport
    ensures { result ≡ transport_in r.numbers }
{
    let n = r.numbers;
    let lengths = Lengths {
        blocks: n[19] as usize,
        ..Lengths::default()
    };
    transport_of(Session {
        unit: unit_in(n, lengths),
        objects: n[20] as usize,
        ..Session::default()
    })
}

// Whether the flags are 0 or 1: then the numbers are the record of what they are read as.
pub fn record_right(r: UnitRecord) -> bool
    ensures { result ≡ is_record r.numbers }
{
    flags_right(r.numbers)
}
