// The message packet: header, 10, residual, XST0, XST1 0, XST2 0, XST3.
ghost use Rattle.std.specs.Prelude.{◌≡◌, ◌+◌, ◌≤◌, length};
ghost use Rattle.signals.specs.Message.{flag_of, header_word, message_of, messaged, status_byte};

use crate::counts::Residual;
use lists::put_word;

// What the end of a command says of itself.
#[derive(Clone, Copy)]
pub struct End {
    // Kept: a number, since `message_of` and `header_word` answer for every one; in `commands` and `advance` too.
    pub class: usize,
    // XST0's bits 15 to 8, at their places.
    pub found: u16,
    pub xst3: u16,
    pub residual: Residual,
}

// XST0's low byte: the unit's condition at the end.
#[derive(Clone, Copy)]
pub struct Status {
    pub mot: bool,
    pub onl: bool,
    pub ie: bool,
    pub vck: bool,
    pub wlk: bool,
    pub bot: bool,
    pub eot: bool,
}

pub fn flag(b: bool, w: u16) -> u16
    ensures is { result ≡ flag_of b w }
    ensures low { result ≤ w }
{
    if b { w } else { 0 }
}

fn status_byte(s: Status) -> u16
    ensures { result ≡ status_byte s }
{
    flag(s.mot, crate::MOT)
        + flag(s.onl, crate::ONL)
        + flag(s.ie, crate::IE)
        + flag(s.vck, crate::VCK)
        + crate::PED
        + flag(s.wlk, crate::WLK)
        + flag(s.bot, crate::BOT)
        + flag(s.eot, crate::EOT)
}

// The header word, by the class; 3 goes by NEF.
#[tactic(auto, unfolding(crate::specs::Message::header_word))]
fn header_word(class: usize, nef: bool) -> u16
    ensures { result ≡ header_word class nef }
{
    match class {
        0 | 2 => 0x8010,
        1 => 0x0013,
        3 => if nef { 0x8211 } else { 0x8111 },
        _ => 0x8012,
    }
}

pub fn message_of(e: End, s: Status) -> [u16; 7]
    ensures { result ≡ message_of e s }
{
    let nef = e.found / crate::NEF % 2 == 1;
    [
        header_word(e.class, nef),
        10,
        u16::from(e.residual),
        e.found.wrapping_add(status_byte(s)),
        0,
        0,
        e.xst3,
    ]
}

// The seven words go to memory at address a.
pub fn put_message(mem: &mut [u8], a: usize, m: [u16; 7])
    requires { a + 14 ≤ length mem.old }
    ensures { mem.new ≡ messaged mem.old a m }
{
    for (i, w) in m.iter().enumerate() {
        put_word(mem, a + 2 * i, usize::from(*w));
    }
}
