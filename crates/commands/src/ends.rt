// How a command, or an attention, ends: the state that it leaves, what it says, and whether it is told.
ghost use Rattle.std.specs.Prelude.{◌≡◌};
ghost use Rattle.commands.specs.Ends.{ended, motion_plan, plan_of, quiet, status_of, still, told, untold};

use crate::plans::{Answer, Course, Done, How, Plan};
use motions::{Ending, laid_blocks, no_lay, no_move};
use signals::{Status, message_of};
use state::{Refusal, Unit};
use tape::{Damage, Geometry};

fn quiet_message() -> [u16; 7]
    ensures { result ≡ quiet }
{
    [0u16; 7]
}

// A plan that stores nothing and leaves the state as it is given.
pub fn still_plan(unit: Unit, answer: Answer) -> Plan
    ensures { result ≡ still unit answer }
{
    let moved = no_move();
    let laid = no_lay();
    let message = quiet_message();
    Plan {
        answer,
        unit,
        moved,
        laid,
        sends: false,
        message,
    }
}

// Every end sets SSR and keeps RMR and NXM; class 5 sets NXM.
fn ended_unit(u: Unit, class: usize) -> Unit
    ensures { result ≡ ended u class }
{
    let mut v = u;
    let nxm = u.registers.nxm | (class == 5);
    v.registers.class = class;
    v.registers.nxm = nxm;
    v.registers.ssr = true;
    v
}

// The unit's condition, for XST0.
fn status_of(u: Unit, ie: bool, mot: bool) -> Status
    ensures { result ≡ status_of u ie mot }
{
    let marker = Geometry {
        capacity: u.lengths.blocks,
    }
    .marker();
    Status {
        mot,
        onl: u.panel.online,
        ie,
        vck: u.panel.vck,
        wlk: u.panel.locked,
        bot: u.tape.position == 0,
        eot: marker <= u.tape.position,
    }
}

// The CPU owns the message buffer, and the message goes out if NBA is clear. MOT: the position differs, or blocks are laid.
fn tell(u: Unit, ie: bool, x: Ending) -> Plan
    ensures { result ≡ told u ie x }
{
    let end = x.end;
    let moved = x.moved;
    let laid = x.laid;
    let tape = x.tape;
    let mot = (u.tape.position != tape.position) | (laid_blocks(laid) != 0);
    let mut v = u;
    v.tape = tape;
    let mut unit = ended_unit(v, end.class);
    unit.attention.unit_owns = false;
    let message = message_of(end, status_of(unit, ie, mot));
    let sends = !unit.registers.nba;
    Plan {
        answer: Ok(Done::Step(ie)),
        unit,
        moved,
        laid,
        sends,
        message,
    }
}

// No message, and the message buffer's owner is kept.
fn untell(u: Unit, class: usize, interrupts: bool) -> Plan
    ensures { result ≡ untold u class interrupts }
{
    still_plan(ended_unit(u, class), Ok(Done::Step(interrupts)))
}

// A motion that ended is told; a block at fault refuses with 7.
fn plan_motion(u: Unit, ie: bool, m: Result<Ending, Damage>) -> Plan
    ensures { result ≡ motion_plan u ie m }
{
    match m {
        Ok(x) => tell(u, ie, x),
        Err(d) => still_plan(u, Err(Refusal::BadBlock(d))),
    }
}

// A motion that is told.
pub fn told_course(unit: Unit, ie: bool, m: Result<Ending, Damage>) -> Course
    ensures { plan_of result ≡ motion_plan unit ie m }
{
    Course {
        unit,
        ie,
        how: How::Told(m),
    }
}

// The one place where a plan is made of what an advance came to.
pub fn plan_of(c: Course) -> Plan
    ensures { result ≡ plan_of c }
{
    let unit = c.unit;
    let how = c.how;
    match how {
        How::Told(m) => plan_motion(unit, c.ie, m),
        How::Untold(class) => untell(unit, class, c.ie),
    }
}
