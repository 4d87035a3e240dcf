// The state's fields in the order in which they are printed, and one of them set.
ghost use Rattle.std.specs.Prelude.{◌≡◌, ◌<◌, set, take};
ghost use Rattle.script.specs.Prints.{Put};
ghost use Rattle.lines.specs.Arranging.{number_of};
ghost use Rattle.results.specs.Fields.{fields_of, printed_fields, session_with};
ghost use Rattle.results.specs.Lines.{numbers_text};

use lines::Field;
use lists::low;
use script::put_labelled;
use worlds::Session;

#[tactic(auto, using(crate::proofs::Numbered::bit_is), unfolding(crate::specs::Fields::fields_of))]
fn printed(s: Session) -> [usize; 21]
    ensures { result ≡ take printed_fields (fields_of s) }
{
    [
        s.unit.tape.position,
        s.unit.tape.end,
        s.unit.registers.pointer,
        s.unit.registers.class,
        usize::from(s.unit.registers.rmr),
        usize::from(s.unit.registers.nxm),
        usize::from(s.unit.registers.nba),
        usize::from(s.unit.registers.ssr),
        usize::from(s.unit.panel.online),
        usize::from(s.unit.panel.locked),
        usize::from(s.unit.panel.vck),
        usize::from(s.unit.attention.unit_owns),
        usize::from(s.unit.attention.pending),
        usize::from(s.unit.characteristics.eai),
        usize::from(s.unit.characteristics.ess),
        usize::from(s.unit.characteristics.enb),
        s.unit.characteristics.address as usize,
        s.unit.characteristics.length as usize,
        usize::from(s.unit.attention.release_ie),
        s.used,
        s.objects,
    ]
}

// Of a session behind a reference no range is known, so it is asked.
fn set_field(s: &mut Session, field: Field, v: usize)
    requires address { s.old.unit.characteristics.address < 4294967296 }
    requires length { s.old.unit.characteristics.length < 4294967296 }
    ensures { s.new ≡ session_with (set (fields_of s.old) (number_of field) v) }
{
    match field {
        Field::Position => s.unit.tape.position = v,
        Field::End => s.unit.tape.end = v,
        Field::Pointer => s.unit.registers.pointer = v,
        Field::Class => s.unit.registers.class = v,
        Field::Rmr => s.unit.registers.rmr = v != 0,
        Field::Nxm => s.unit.registers.nxm = v != 0,
        Field::Nba => s.unit.registers.nba = v != 0,
        Field::Ssr => s.unit.registers.ssr = v != 0,
        Field::Online => s.unit.panel.online = v != 0,
        Field::Locked => s.unit.panel.locked = v != 0,
        Field::Vck => s.unit.panel.vck = v != 0,
        Field::UnitOwns => s.unit.attention.unit_owns = v != 0,
        Field::Pending => s.unit.attention.pending = v != 0,
        Field::Eai => s.unit.characteristics.eai = v != 0,
        Field::Ess => s.unit.characteristics.ess = v != 0,
        Field::Enb => s.unit.characteristics.enb = v != 0,
        Field::Address => s.unit.characteristics.address = low(v),
        Field::Length => s.unit.characteristics.length = low(v),
        Field::ReleaseIe => s.unit.attention.release_ie = v != 0,
        Field::Used => s.used = v,
        Field::Objects => s.objects = v,
        Field::Memory => s.unit.lengths.memory = v,
        Field::Blocks => s.unit.lengths.blocks = v,
        Field::Journal => s.journal = v,
    }
}

// The session with a field made v; a flag is set by any number but 0.
pub fn with_field(s: Session, field: Field, v: usize) -> Session
    ensures { result ≡ session_with (set (fields_of s) (number_of field) v) }
{
    let mut next = s;
    set_field(&mut next, field, v);
    next
}

// A blank and each number.
fn put_numbers(out: &mut [u8], at: usize, numbers: &[usize]) -> usize
    ensures { Put out.old at (numbers_text numbers.now) out.new result }
{
    let mut next = at;
    for &n in numbers {
        next = put_labelled(out, next, b" ", n);
    }
    next
}

pub fn put_fields(out: &mut [u8], at: usize, s: Session) -> usize
    ensures { Put out.old at (numbers_text (take printed_fields (fields_of s))) out.new result }
{
    put_numbers(out, at, &printed(s))
}
