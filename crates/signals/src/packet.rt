// The command packet in memory.
ghost use Rattle.std.specs.Prelude.{◌≡◌, ◌+◌, ◌<◌, ◌≤◌, length};
ghost use Rattle.signals.specs.Header.{has_pointer, header_of, packet_of};
ghost use Rattle.signals.specs.Numbers.{packet_bytes, pointer_limit};

use lists::word;

// The header word's fields.
// Kept: mode and code are numbers, since every word has them, and steps 2 to 4 take words that no command has; `decode` gives the command.
#[derive(Clone, Copy)]
pub struct Header {
    pub ack: bool,
    pub cvc: bool,
    pub opp: bool,
    pub swb: bool,
    pub ie: bool,
    // Bits 7:5 are 000 or 100.
    pub plain: bool,
    pub mode: usize,
    pub code: usize,
}

pub fn header_of(w: usize) -> Header
    ensures { result ≡ header_of w }
{
    Header {
        ack: w / 32768 % 2 == 1,
        cvc: w / 16384 % 2 == 1,
        opp: w / 8192 % 2 == 1,
        swb: w / 4096 % 2 == 1,
        ie: w / 128 % 2 == 1,
        plain: w / 32 % 4 == 0,
        mode: w / 256 % 16,
        code: w % 32,
    }
}

// Does the packet name data in memory?
// Kept: `has_pointer` and `fetch` answer for every code, as their contracts say; a `Command` would ask for one that has a command.
pub fn has_pointer(code: usize) -> bool
    ensures { result ≡ has_pointer code }
{
    (code == 1) | (code == 4) | (code == 5)
}

// What the words after the header say: the data pointer and the count.
#[derive(Clone, Copy, Default)]
pub struct Packet {
    pub pointer: usize,
    // Pointer bits above A17 are set.
    pub high: bool,
    pub count: u16,
}

#[tactic(auto, unfolding(crate::specs::Header::packet_of))]
pub fn fetch(mem: &[u8], at: usize, code: usize) -> Packet
    requires { (at + packet_bytes ≤ length mem.now) × (at < pointer_limit) }
    ensures is { result ≡ packet_of mem.now at code }
    ensures low { result.pointer < pointer_limit }
{
    if has_pointer(code) {
        let high = word(mem, at + 4);
        return Packet {
            pointer: word(mem, at + 2) + 65536 * (high % 4),
            high: 4 <= high,
            count: word(mem, at + 6) as u16,
        };
    }
    if code == 8 {
        return Packet {
            count: word(mem, at + 2) as u16,
            ..Packet::default()
        };
    }
    Packet::default()
}
