// The lines that are printed.
// Kept: where the next byte goes is handed on beside the buffer, since script's `Put old at bytes new result` says it so.
#![tactic(auto, using(crate::proofs::Texts::put_empty), unfolding(crate::specs::Lines::also_text, crate::specs::Lines::answer_text, crate::specs::Lines::word_text, crate::specs::Lines::sums_text, crate::specs::Lines::result_line, crate::specs::Complaints::reason_text, crate::specs::Complaints::complaint_line, script::specs::Rules::own_rules))]

ghost use Rattle.std.specs.Prelude.{◌≡◌, ◌++◌};
ghost use Rattle.script.specs.Prints.{Put};
ghost use Rattle.results.specs.Complaints.{complaint_line, reason_text};
ghost use Rattle.results.specs.Lines.{also_text, answer_text, bad_text, done_text, entry_text, interrupt_text, read_text, refusal_text, result_line, sums_text, word_text};

use crate::fields::put_fields;
use crate::{Also, Told};
use commands::{Answer, Done};
use script::{Fault, put_byte, put_bytes, put_decimal, put_hex, put_labelled};
use state::Refusal;
use tape::BlockFault;

fn put_interrupt(out: &mut [u8], at: usize, interrupt: bool, entry: usize) -> usize
    ensures { Put out.old at (interrupt_text interrupt ++ entry_text entry) out.new result }
{
    let next = put_labelled(out, at, b" int=", usize::from(interrupt));
    put_labelled(out, next, b" entry=", entry)
}

fn put_also(out: &mut [u8], at: usize, also: Also, interrupt: bool) -> usize
    ensures { Put out.old at (also_text interrupt also) out.new result }
{
    match also {
        Also::Entry(n) => put_labelled(out, at, b" entry=", n),
        Also::Interrupt(n) => put_interrupt(out, at, interrupt, n),
        Also::Nothing | Also::Word(_) => at,
    }
}

fn put_done(out: &mut [u8], also: Also, interrupt: bool) -> usize
    ensures { Put out.old 0 (done_text interrupt also) out.new result }
{
    let at = put_bytes(out, 0, b"0");
    put_also(out, at, also, interrupt)
}

// Refusal 7: the block, and the letter of what is wrong with it.
fn put_bad(out: &mut [u8], fault: BlockFault, k: usize) -> usize
    ensures { Put out.old 0 (bad_text fault k) out.new result }
{
    let at1 = put_labelled(out, 0, b"7 block=", k);
    let at2 = put_bytes(out, at1, b" fault=");
    put_byte(out, at2, tape::letter(fault))
}

fn put_refusal(out: &mut [u8], r: Refusal) -> usize
    ensures { Put out.old 0 (refusal_text r) out.new result }
{
    match r {
        Refusal::BadBlock(d) => put_bad(out, d.fault, d.block),
        _ => put_decimal(out, 0, r.number()),
    }
}

fn put_answer(out: &mut [u8], answer: Answer, also: Also) -> usize
    ensures { Put out.old 0 (answer_text answer also) out.new result }
{
    match answer {
        Ok(done) => match done {
            Done::Step(interrupt) => put_done(out, also, interrupt),
            Done::Idle => put_bytes(out, 0, b"idle"),
        },
        Err(r) => put_refusal(out, r),
    }
}

fn put_read(out: &mut [u8], at: usize, w: usize) -> usize
    ensures { Put out.old at (read_text w) out.new result }
{
    let next = put_bytes(out, at, b" word=");
    put_hex(out, next, w, 4)
}

fn put_word_read(out: &mut [u8], at: usize, also: Also) -> usize
    ensures { Put out.old at (word_text also) out.new result }
{
    match also {
        Also::Word(w) => put_read(out, at, w),
        Also::Nothing | Also::Entry(_) | Also::Interrupt(_) => at,
    }
}

fn put_sums(out: &mut [u8], at: usize, memory: usize, reel: usize, table: usize) -> usize
    ensures { Put out.old at (sums_text memory reel table) out.new result }
{
    let at = put_bytes(out, at, b" | ");
    let at = put_hex(out, at, memory, 8);
    let at = put_bytes(out, at, b" ");
    let at = put_hex(out, at, reel, 8);
    let at = put_bytes(out, at, b" ");
    let at = put_hex(out, at, table, 8);
    put_bytes(out, at, b"\n")
}

// The result line of a call, with the check sums of memory, reel and the table's used part.
pub fn put_result(out: &mut [u8], t: Told, memory: usize, reel: usize, table: usize) -> usize
    ensures { Put out.old 0 (result_line t.answer t.also t.session memory reel table) out.new result }
{
    let answer = t.answer;
    let also = t.also;
    let at = put_answer(out, answer, also);
    let at = put_word_read(out, at, also);
    let at = put_bytes(out, at, b" |");
    let session = t.session;
    let at = put_fields(out, at, session);
    put_sums(out, at, memory, reel, table)
}

fn reason(f: Fault) -> &'static [u8]
    ensures { result.now ≡ reason_text f }
{
    match f {
        Fault::UnknownWord => b": unknown word\n",
        Fault::ExtraWord => b": too many words\n",
        Fault::WordMissing => b": a word is missing\n",
        Fault::NumberMissing => b": a number is missing\n",
        Fault::NumberWrong => b": not a number\n",
        Fault::NumberTooLarge => b": a number is too large\n",
        Fault::HexWrong => b": not bytes in hexadecimal\n",
        Fault::LineTooLong => b": longer than 4096 bytes\n",
        Fault::BeyondBuffers => b": more than this program has room for\n",
        Fault::OutsideMemory => b": outside memory\n",
        Fault::OutsideReel => b": outside the reel\n",
        Fault::OutsideTable => b": outside the table\n",
        Fault::RecordTooLong => b": longer than a record can be\n",
        Fault::OtherRules => b": other rules: this program has rules 2 4 7 8\n",
    }
}

// The line that says which line can't be read, and why.
pub fn put_complaint(out: &mut [u8], line: usize, f: Fault) -> usize
    ensures { Put out.old 0 (complaint_line line f) out.new result }
{
    let at = put_labelled(out, 0, b"line ", line);
    put_bytes(out, at, reason(f))
}
