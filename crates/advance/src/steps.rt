// Advance, in order: a method for each step of the paper, each going on to the next.
ghost use Rattle.std.specs.Prelude.{◌≡◌, ◌+◌, ◌<◌, ◌≤◌, length, ltb};
ghost use Rattle.tape.specs.Numbers.{capacity_limit};
ghost use Rattle.signals.specs.Numbers.{packet_bytes, pointer_limit};
ghost use Rattle.lists.specs.Pick.{pick};
ghost use Rattle.commands.specs.Ends.{plan_of};
ghost use Rattle.advance.specs.Rules.{not_executable};
ghost use Rattle.advance.specs.Steps.{advanced, attended, rejected, step_attention, step_executable, step_extent, step_fetch, step_header, step_illegal, step_no_buffer, step_owner, step_pointer, step_volume};

use crate::rules::Known;
use commands::{Course, Done, How, Plan, carry_out, plan_of, still_plan, told_course};
use lists::word;
use motions::rest;
use signals::{End, Header, Packet, Residual};
use state::Unit;

// What an advance looks at: the unit, as the steps so far left it, and what is lent.
#[derive(Clone, Copy)]
struct Given<'a> {
    unit: Unit,
    memory: &'a [u8],
    reel: &'a [u8],
    ghost recorded: { unit.tape.end ≤ capacity_limit },
    ghost pointed: { unit.registers.pointer < pointer_limit },
}

impl Given<'_> {
    // What a rejected command says: class 3, or 5 with NXM.
    #[tactic(auto, unfolding(crate::specs::Steps::rejected_under, commands::specs::Ends::motion_plan_under))]
    fn reject(self, ie: bool, class: usize, found: u16, residual: Residual) -> Course
        ensures { plan_of result ≡ rejected self.entry.unit ie class found residual }
    {
        let end = End {
            class,
            found,
            xst3: 0,
            residual,
        };
        told_course(self.unit, ie, Ok(rest(end, self.unit.tape)))
    }

    // An attention goes out: class 1, and none is pending then.
    #[tactic(auto, unfolding(crate::specs::Steps::attended_under))]
    fn attend(mut self, ie: bool) -> Course
        ensures { plan_of result ≡ attended self.entry.unit ie }
    {
        self.unit.attention.pending = false;
        self.reject(ie, 1, 0, Residual::Nothing)
    }

    // Do the data end past memory? A made-up pointer doesn't wrap.
    fn overruns(self, p: Packet) -> bool
        ensures { result ≡ ltb (length self.entry.memory.now) (p.pointer + p.count) }
    {
        self.memory.len() < p.pointer.saturating_add(usize::from(p.count))
    }

    // 10. Data extent past the end of memory: NXM, class 5.
    fn step_extent(self, k: Known, p: Packet) -> Course
        ensures { plan_of result ≡ step_extent self.entry.unit self.entry.memory.now self.entry.reel.now k.header p }
    {
        let h = k.header;
        if k.has_extent() & self.overruns(p) {
            return self.reject(h.ie, 5, 0, k.whole_count(p.count));
        }
        carry_out(self.unit, self.memory, self.reel, h, p, k.command)
    }

    // What keeps a command of step 9 from running, but for the write lock.
    #[tactic(auto, unfolding(crate::specs::Rules::not_executable_under))]
    fn not_executable(self, k: Known, p: Packet) -> bool
        ensures { result ≡ not_executable self.entry.unit k.header p }
    {
        (k.reverse_first() & (self.unit.tape.position == 0)) | k.length_wrong(p.count)
    }

    // 9. Off line or VCK: NEF. Write lock: NEF and WLE. Reverse at block 0, a written length out of range: NEF.
    #[tactic(auto, unfolding(crate::specs::Steps::step_executable_under))]
    fn step_executable(self, k: Known, p: Packet) -> Course
        ensures { plan_of result ≡ step_executable self.entry.unit self.entry.memory.now self.entry.reel.now k.header p }
    {
        let h = k.header;
        let panel = self.unit.panel;
        if k.is_tape() & ((!panel.online) | panel.vck) {
            return self.reject(h.ie, 3, signals::NEF, k.whole_count(p.count));
        }
        if k.writes_tape() & panel.locked {
            return self.reject(h.ie, 3, signals::NEF + signals::WLE, k.whole_count(p.count));
        }
        if self.not_executable(k, p) {
            return self.reject(h.ie, 3, signals::NEF, k.whole_count(p.count));
        }
        self.step_extent(k, p)
    }

    // 8. Pointer bits above A17, or odd pointer in Write Characteristics: ILA, class 3.
    #[tactic(auto, unfolding(crate::specs::Steps::step_pointer_under))]
    fn step_pointer(self, k: Known, p: Packet) -> Course
        ensures { plan_of result ≡ step_pointer self.entry.unit self.entry.memory.now self.entry.reel.now k.header p }
    {
        let h = k.header;
        if p.high | (k.names_buffer() & (p.pointer % 2 == 1)) {
            return self.reject(h.ie, 3, signals::ILA, k.whole_count(p.count));
        }
        self.step_executable(k, p)
    }

    // Does the packet end past memory? All four words are fetched, whichever the command uses.
    fn overhangs(self) -> bool
        ensures { result ≡ ltb (length self.entry.memory.now) (self.entry.unit.registers.pointer + packet_bytes) }
    {
        self.memory.len() < self.unit.registers.pointer + signals::PACKET_BYTES
    }

    // 7. One of the packet's eight bytes outside memory: NXM, class 5.
    #[tactic(auto, unfolding(crate::specs::Steps::step_fetch_under))]
    fn step_fetch(self, k: Known) -> Course
        ensures { plan_of result ≡ step_fetch self.entry.unit self.entry.memory.now self.entry.reel.now k.header }
    {
        if self.overhangs() {
            return self.reject(k.header.ie, 5, 0, Residual::Nothing);
        }
        let at = self.unit.registers.pointer;
        self.step_pointer(k, signals::fetch(self.memory, at, k.header.code))
    }

    // 6. NBA set and not Write Characteristics: class 3.
    #[tactic(auto, unfolding(crate::specs::Steps::step_no_buffer_under))]
    fn step_no_buffer(self, k: Known) -> Course
        ensures { plan_of result ≡ step_no_buffer self.entry.unit self.entry.memory.now self.entry.reel.now k.header }
    {
        if self.unit.registers.nba & !k.names_buffer() {
            return self.reject(k.header.ie, 3, 0, Residual::Nothing);
        }
        self.step_fetch(k)
    }

    // 5. Bits 7:5 neither 000 nor 100, or unknown code or mode: ILC, class 3.
    #[tactic(auto, unfolding(crate::specs::Steps::step_illegal_under, crate::specs::Rules::is_illegal))]
    fn step_illegal(self, header: Header) -> Course
        ensures { plan_of result ≡ step_illegal self.entry.unit self.entry.memory.now self.entry.reel.now header }
    {
        match signals::decode(header.code, header.mode) {
            Some(command) if header.plain => self.step_no_buffer(Known { header, command }),
            _ => self.reject(header.ie, 3, signals::ILC, Residual::Nothing),
        }
    }

    // 4. CVC clears VCK.
    #[tactic(auto, unfolding(crate::specs::Steps::step_volume_under))]
    fn step_volume(mut self, h: Header) -> Course
        ensures { plan_of result ≡ step_volume self.entry.unit self.entry.memory.now self.entry.reel.now h }
    {
        self.unit.panel.vck &= !h.cvc;
        self.step_illegal(h)
    }

    // 3. Attention pending and the unit owns the buffer: the command is lost.
    #[tactic(auto, unfolding(crate::specs::Steps::step_attention_under))]
    fn step_attention(self, h: Header) -> Course
        ensures { plan_of result ≡ step_attention self.entry.unit self.entry.memory.now self.entry.reel.now h }
    {
        if self.unit.attention.pending {
            return self.attend(h.ie);
        }
        self.step_volume(h)
    }

    // 2. ACK gives the message buffer to the unit. No ACK while the CPU owns it: class 0, no message, the command isn't run.
    #[tactic(auto, unfolding(crate::specs::Steps::step_owner_under, commands::specs::Ends::plan_of_under, commands::specs::Ends::plan_by_under))]
    fn step_owner(mut self, h: Header) -> Course
        ensures { plan_of result ≡ step_owner self.entry.unit self.entry.memory.now self.entry.reel.now h }
    {
        self.unit.attention.unit_owns |= h.ack;
        if !self.unit.attention.unit_owns {
            return Course {
                unit: self.unit,
                ie: h.ie,
                how: How::Untold(0),
            };
        }
        self.step_attention(h)
    }

    // 1. Header word outside memory: NXM, class 5, no message, no interrupt, the message buffer's owner kept.
    #[tactic(auto, unfolding(crate::specs::Steps::step_header_under, commands::specs::Ends::plan_of_under, commands::specs::Ends::plan_by_under))]
    fn step_header(self) -> Course
        ensures { plan_of result ≡ step_header self.entry.unit self.entry.memory.now self.entry.reel.now }
    {
        let at = self.unit.registers.pointer;
        if self.memory.len() < at + 2 {
            return Course {
                unit: self.unit,
                ie: false,
                how: How::Untold(5),
            };
        }
        self.step_owner(signals::header_of(word(self.memory, at)))
    }

    // The command that waits, or the attention that goes out with the release's IE.
    fn course(self) -> Course
        ensures { plan_of result ≡ pick self.entry.unit.registers.ssr (attended self.entry.unit self.entry.unit.attention.release_ie) (step_header self.entry.unit self.entry.memory.now self.entry.reel.now) }
    {
        if self.unit.registers.ssr {
            return self.attend(self.unit.attention.release_ie);
        }
        self.step_header()
    }
}

// What an advance is about to do. With no command waiting, and no attention that the unit may send, nothing.
pub fn plan_advance(u: Unit, mem: &[u8], reel: &[u8]) -> Plan
    requires { (u.tape.end ≤ capacity_limit) × (u.registers.pointer < pointer_limit) }
    ensures { result ≡ advanced u mem.now reel.now }
{
    if u.registers.ssr & !(u.attention.pending & u.attention.unit_owns) {
        return still_plan(u, Ok(Done::Idle));
    }
    let given = Given {
        unit: u,
        memory: mem,
        reel,
    };
    plan_of(given.course())
}
