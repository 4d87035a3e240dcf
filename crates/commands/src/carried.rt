// The commands, carried out.
// Kept: that the packet's data lie in memory is asked by the three functions of Write Characteristics; a struct of memory and packet would be made for these alone.
ghost use Rattle.std.specs.Prelude.{Some, true, ◌≡◌, ◌+◌, ◌≤◌, length};
ghost use Rattle.tape.specs.Numbers.{capacity_limit};
ghost use Rattle.commands.specs.Ends.{plan_of};
ghost use Rattle.commands.specs.Commands.{DataFit, asked, carried_out, characteristics_at, characterized, laid_here, laying, mode_word, motion_of, plain_end, positioning, refused_characteristics, released, taken_characteristics, unloaded};

use crate::ends::told_course;
use crate::plans::{Course, How};
use lists::word;
use motions::{
    Buffer, Ending, Laid, ObjectKind, position, read_one, reread_one, rest, retry, write_at,
};
use moves::{Count, Rule};
use signals::{ByteCount, Command, End, Header, MarkCount, Packet, RecordCount, Residual};
use state::{Characteristics, Tape, Unit};
use tape::Damage;

fn plain_end() -> End
    ensures { result ≡ plain_end }
{
    let residual = Residual::Nothing;
    End {
        class: 0,
        found: 0,
        xst3: 0,
        residual,
    }
}

// A release carried out is not told, and leaves its IE for an idle attention.
fn release(u: Unit, ie: bool) -> Course
    ensures { plan_of result ≡ released u ie }
{
    let mut v = u;
    v.attention.release_ie = ie;
    Course {
        unit: v,
        ie: false,
        how: How::Untold(0),
    }
}

// Rewind and unload ends off line, with no attention.
fn unload(u: Unit, ie: bool) -> Course
    ensures { plan_of result ≡ unloaded u ie }
{
    let mut v = u;
    v.panel.online = false;
    let start = Tape {
        position: 0,
        end: u.tape.end,
    };
    told_course(v, ie, Ok(rest(plain_end(), start)))
}

// The mode word, 0 if the count is under 8.
fn mode_word(mem: &[u8], p: Packet) -> usize
    requires { p.pointer + p.count ≤ length mem.now }
    ensures { result ≡ mode_word mem.now p }
{
    if p.count < 8 {
        return 0;
    }
    word(mem, p.pointer + 6)
}

// Address low, high, length, mode word.
fn characteristics_at(mem: &[u8], p: Packet) -> Characteristics
    requires { (p.pointer + p.count ≤ length mem.now) × (6 ≤ p.count) }
    ensures { result ≡ characteristics_at mem.now p }
{
    let address = word(mem, p.pointer) + 65536 * word(mem, p.pointer + 2);
    let length = word(mem, p.pointer + 4);
    let mode = mode_word(mem, p);
    Characteristics {
        address: address as u32,
        length: length as u32,
        eai: mode / 32 % 2 == 1,
        ess: mode / 128 % 2 == 1,
        enb: mode / 64 % 2 == 1,
    }
}

// NBA set, class 3, all old values kept.
fn refuse_characteristics(u: Unit, ie: bool) -> Course
    ensures { plan_of result ≡ refused_characteristics u ie }
{
    let mut v = u;
    v.registers.nba = true;
    let residual = Residual::Nothing;
    let end = End {
        class: 3,
        found: 0,
        xst3: 0,
        residual,
    };
    let t = u.tape;
    told_course(v, ie, Ok(rest(end, t)))
}

// NBA clears and all are taken.
fn take_characteristics(u: Unit, c: Characteristics, ie: bool) -> Course
    ensures { plan_of result ≡ taken_characteristics u c ie }
{
    let mut v = u;
    v.registers.nba = false;
    v.characteristics = c;
    let t = u.tape;
    told_course(v, ie, Ok(rest(plain_end(), t)))
}

fn characterize(u: Unit, mem: &[u8], p: Packet, ie: bool) -> Course
    requires { p.pointer + p.count ≤ length mem.now }
    ensures { plan_of result ≡ characterized u mem.now p ie }
{
    if p.count < 6 {
        return refuse_characteristics(u, ie);
    }
    let c = characteristics_at(mem, p);
    if (signals::POINTER_LIMIT <= c.address as usize) | state::buffer_wrong(c, mem.len()) {
        return refuse_characteristics(u, ie);
    }
    take_characteristics(u, c, ie)
}

// What a Read asks for.
fn asked_buffer(h: Header, p: Packet) -> Buffer
    ensures { result ≡ asked h p }
{
    Buffer {
        pointer: p.pointer,
        count: ByteCount(p.count),
        swb: h.swb,
    }
}

fn space(
    reel: &[u8],
    t: Tape,
    c: Characteristics,
    count: Count,
    reverse: bool,
) -> Result<Ending, Damage>
    requires { t.end ≤ capacity_limit }
    ensures { result ≡ positioning reel.now t c count reverse }
{
    let rule = Rule {
        reverse,
        ess: c.ess,
    };
    position(reel, t, rule, count, c.enb)
}

// An object where the tape stands.
fn lay_here(t: Tape, object: ObjectKind, pointer: usize, length: u16, swb: bool) -> Laid
    ensures { result ≡ laid_here t object pointer length swb }
{
    Laid {
        at: t.position,
        gap_first: false,
        object,
        pointer,
        length,
        swb,
    }
}

// A Write or a Format, or its retry.
// Kept: `again` is the mode's, and `laying` is for both; with `retry` and `write_at` in the arms of `move_tape` these grow by five, and a get status takes 2.4 % more.
// Kept: `mark` beside `l`: `laying` takes it so, and to tell it by the object the clause would need a test of its own.
fn lay(
    reel: &[u8],
    t: Tape,
    blocks: usize,
    l: Laid,
    mark: bool,
    again: bool,
) -> Result<Ending, Damage>
    ensures { result ≡ laying reel.now t blocks l mark again }
{
    if again {
        return retry(reel, t, blocks, l, mark);
    }
    Ok(write_at(t, blocks, l, mark))
}

// The motion of a command; those that move nothing end where the tape stands.
fn move_tape(u: Unit, reel: &[u8], h: Header, p: Packet, c: Command) -> Result<Ending, Damage>
    requires { u.tape.end ≤ capacity_limit }
    ensures { result ≡ motion_of u reel.now h p c }
{
    let t = u.tape;
    let x = u.characteristics;
    let blocks = u.lengths.blocks;
    let buffer = asked_buffer(h, p);
    let records = Count::Records(RecordCount(p.count));
    let marks = Count::Marks(MarkCount(p.count));
    let record = lay_here(t, ObjectKind::Record, p.pointer, p.count, h.swb);
    let mark = lay_here(t, ObjectKind::Mark, 0, 0, false);
    let gap = lay_here(t, ObjectKind::Gap, 0, 0, false);
    let here = rest(plain_end(), t);
    let start = rest(
        plain_end(),
        Tape {
            position: 0,
            end: t.end,
        },
    );
    match c {
        Command::ReadNext => read_one(reel, t, buffer, false),
        Command::ReadPrevious => read_one(reel, t, buffer, true),
        Command::RereadPrevious => reread_one(reel, t, buffer, true, h.opp),
        Command::RereadNext => reread_one(reel, t, buffer, false, h.opp),
        Command::WriteCharacteristics => Ok(here),
        Command::Write => lay(reel, t, blocks, record, false, false),
        Command::WriteRetry => lay(reel, t, blocks, record, false, true),
        Command::RecordsForward => space(reel, t, x, records, false),
        Command::RecordsReverse => space(reel, t, x, records, true),
        Command::MarksForward => space(reel, t, x, marks, false),
        Command::MarksReverse => space(reel, t, x, marks, true),
        Command::Rewind => Ok(start),
        Command::WriteMark => lay(reel, t, blocks, mark, true, false),
        Command::Erase => lay(reel, t, blocks, gap, false, false),
        Command::MarkRetry => lay(reel, t, blocks, mark, true, true),
        Command::Release => Ok(here),
        Command::Unload => Ok(here),
        Command::Clean => Ok(here),
        Command::Initialize => Ok(here),
        Command::GetStatus => Ok(here),
    }
}

// All but three commands end as their motion does.
pub fn carry_out(u: Unit, mem: &[u8], reel: &[u8], h: Header, p: Packet, c: Command) -> Course
    requires { (u.tape.end ≤ capacity_limit) × DataFit (Some c) p mem.now }
    ensures { plan_of result ≡ carried_out u mem.now reel.now h p (Some c) }
{
    if let Command::WriteCharacteristics = c {
        return characterize(u, mem, p, h.ie);
    }
    if let Command::Release = c {
        return release(u, h.ie);
    }
    if let Command::Unload = c {
        return unload(u, h.ie);
    }
    told_course(u, h.ie, move_tape(u, reel, h, p, c))
}
