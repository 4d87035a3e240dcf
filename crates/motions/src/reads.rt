// Read: one stage, or two for a reread.
ghost use Rattle.std.specs.Prelude.{◌≡◌, Ok};
ghost use Rattle.motions.specs.Parts.{standing};
ghost use Rattle.motions.specs.Reads.{first_block, mark_end, nothing_end, read_end, read_motion, read_one, read_then_space, reread, space_back, space_then_read, stage_of};

use crate::parts::{Ending, Moved, rest};
use moves::{Sought, seek};
use signals::{ByteCount, End, Residual, flag};
use state::Tape;
use tape::Damage;

// What a Read asks for.
#[derive(Clone, Copy)]
pub struct Buffer {
    pub pointer: usize,
    pub count: ByteCount,
    pub swb: bool,
}

// A stage found a record, with the position beyond it, or the command is over.
// Kept: no Result, since neither end of a stage is a failure.
#[derive(Clone, Copy)]
pub enum Stage {
    Record(usize, usize),
    Over(Ending),
}

// A record of n bytes against the count: RLS if shorter, RLL if longer, class 2 for both.
fn read_end(n: usize, count: ByteCount, rev: bool) -> End
    ensures { result ≡ read_end n count rev }
{
    let c = count.0 as usize;
    let class = if n == c { 0 } else { 2 };
    let found = flag(n < c, signals::RLS) + flag(c < n, signals::RLL);
    let xst3 = flag(rev, signals::REV);
    let left = (c - n.min(c)) as u16;
    let residual = Residual::Bytes(ByteCount(left));
    End {
        class,
        found,
        xst3,
        residual,
    }
}

// A mark: TMK, RLS, class 2.
fn mark_end(count: ByteCount, rev: bool) -> End
    ensures { result ≡ mark_end count rev }
{
    let xst3 = flag(rev, signals::REV);
    let residual = Residual::Bytes(count);
    End {
        class: 2,
        found: signals::TMK + signals::RLS,
        xst3,
        residual,
    }
}

// Nothing left: OPI and class 6 forward, RIB and class 2 in reverse.
fn nothing_end(count: ByteCount, reverse: bool) -> End
    ensures { result ≡ nothing_end count reverse }
{
    let residual = Residual::Bytes(count);
    if reverse {
        return End {
            class: 2,
            found: 0,
            xst3: signals::REV + signals::RIB,
            residual,
        };
    }
    End {
        class: 6,
        found: 0,
        xst3: signals::OPI,
        residual,
    }
}

// The first block of the record of n bytes beyond which the position is q.
fn first_block(reverse: bool, n: usize, q: usize) -> usize
    ensures { result ≡ first_block reverse n q }
{
    if reverse {
        return q;
    }
    let m = tape::pieces(n);
    if q < m { 0 } else { q - m }
}

// A Read on its way: the reel, where the tape stands now, and what was asked for.
#[derive(Clone, Copy)]
struct Reading<'a> {
    reel: &'a [u8],
    tape: Tape,
    buffer: Buffer,
}

impl Reading<'_> {
    // Seek, and say how the command ends where no record is found.
    fn stage(self, reverse: bool) -> Result<Stage, Damage>
        ensures { result ≡ stage_of self.entry.reel.now self.entry.tape self.entry.buffer.count reverse }
    {
        let t = self.tape;
        let count = self.buffer.count;
        Ok(match seek(self.reel, reverse, t.position, t.end)? {
            Sought::Record(n, q) => Stage::Record(n, q),
            Sought::Mark(q) => Stage::Over(rest(
                mark_end(count, reverse),
                Tape { position: q, ..t },
            )),
            Sought::Nothing(q) => Stage::Over(rest(
                nothing_end(count, reverse),
                Tape { position: q, ..t },
            )),
        })
    }

    // The record's bytes go to the buffer by the direction of the read, and the tape stands at `position` after the last stage.
    // Kept: `position` is handed apart: with the tape moved first, ts11_advance wants 2,208 bytes of stack, and 2,048 is the most.
    fn ended(self, position: usize, reverse: bool, n: usize, q: usize, rev: bool) -> Ending
        ensures { Ok result ≡ read_motion self.entry.buffer reverse n q (standing position self.entry.tape.end) rev }
    {
        let r = self.buffer;
        let count = r.count;
        let end = read_end(n, count, rev);
        let first = first_block(reverse, n, q);
        let moved = Moved {
            first,
            length: n,
            reverse,
            pointer: r.pointer,
            count: count.0,
            swb: r.swb,
        };
        let tape = Tape {
            position,
            ..self.tape
        };
        Ending {
            moved,
            ..rest(end, tape)
        }
    }

    // Space, then read back over it.
    fn space_then_read(mut self, reverse: bool) -> Result<Ending, Damage>
        ensures { result ≡ space_then_read self.entry.reel.now self.entry.tape self.entry.buffer reverse }
    {
        match self.stage(reverse)? {
            Stage::Record(_, q) => {
                self.tape.position = q;
                read_one(self.reel, self.tape, self.buffer, !reverse)
            }
            Stage::Over(x) => Ok(x),
        }
    }

    // The space back after a read, for OPP.
    fn space_back(mut self, reverse: bool, n: usize, q: usize) -> Result<Ending, Damage>
        ensures { result ≡ space_back self.entry.reel.now self.entry.tape.end self.entry.buffer reverse n q }
    {
        self.tape.position = q;
        match self.stage(!reverse)? {
            Stage::Record(_, b) => Ok(self.ended(b, reverse, n, q, !reverse)),
            Stage::Over(x) => Ok(x),
        }
    }

    // Read, then space back over it: OPP.
    fn read_then_space(self, reverse: bool) -> Result<Ending, Damage>
        ensures { result ≡ read_then_space self.entry.reel.now self.entry.tape self.entry.buffer reverse }
    {
        match self.stage(reverse)? {
            Stage::Record(n, q) => self.space_back(reverse, n, q),
            Stage::Over(x) => Ok(x),
        }
    }
}

// Read in one stage; the second of a plain reread, too.
#[inline(always)]
pub fn read_one(reel: &[u8], t: Tape, r: Buffer, reverse: bool) -> Result<Ending, Damage>
    ensures { result ≡ read_one reel.now t r reverse }
{
    let reading = Reading {
        reel,
        tape: t,
        buffer: r,
    };
    match reading.stage(reverse)? {
        Stage::Record(n, q) => Ok(reading.ended(q, reverse, n, q, reverse)),
        Stage::Over(x) => Ok(x),
    }
}

// Kept: `opp` is the packet's bit, and `reread` is promised for both.
#[inline(always)]
pub fn reread_one(
    reel: &[u8],
    t: Tape,
    r: Buffer,
    reverse: bool,
    opp: bool,
) -> Result<Ending, Damage>
    ensures { result ≡ reread reel.now t r reverse opp }
{
    let reading = Reading {
        reel,
        tape: t,
        buffer: r,
    };
    if opp {
        return reading.read_then_space(reverse);
    }
    reading.space_then_read(reverse)
}
