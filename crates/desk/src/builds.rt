// Lines that put bytes into memory and reel with no call: each answers where the cursor is then, or what is wrong.
#![tactic(auto, unfolding(crate::specs::Turns::settled, crate::specs::Builds::built_answer, crate::specs::Builds::built_memory, crate::specs::Builds::built_reel, crate::specs::Builds::poke_answer, crate::specs::Builds::word_answer, crate::specs::Builds::block_answer, crate::specs::Builds::record_answer))]

ghost use Rattle.std.specs.Prelude.{◌≡◌, ◌+◌, ◌≤◌, leb, min, length, take};
ghost use Rattle.std.proofs.lemmas.List.Edits.{sets};
ghost use Rattle.lists.specs.Pick.{pick};
ghost use Rattle.lists.specs.Words.{word_bytes};
ghost use Rattle.tape.specs.Objects.{Object};
ghost use Rattle.desk.specs.Turns.{settled};
ghost use Rattle.desk.specs.Builds.{block_answer, built_answer, built_memory, built_reel, check_bytes, check_place, if_taken, laid_at, poke_answer, record_answer, word_answer};

use crate::arranges::still;
use crate::{Desk, Turn};
use lines::Build;
use lists::{put_word, word_sum};
use script::Fault;
use tape::Geometry;

// Whether n of them from a place on lie in a room of so many.
fn fits(room: usize, at: usize, n: usize) -> bool
    ensures { result ≡ leb (at + n) room }
{
    n <= room && at <= room - n
}

// The bytes d at a place of memory, reel or table.
pub fn poke(b: &mut [u8], at: usize, d: &[u8], p: usize, outside: Fault) -> Result<usize, Fault>
    ensures answer { result ≡ poke_answer (length b.old) at (length d.now) p outside }
    ensures stored { b.new ≡ if_taken (poke_answer (length b.old) at (length d.now) p outside) (sets b.old at d.now) b.old }
{
    if !fits(b.len(), at, d.len()) {
        return Err(outside);
    }
    b[at..at + d.len()].copy_from_slice(d);
    Ok(p)
}

pub fn poke_word(mem: &mut [u8], at: usize, w: usize, p: usize) -> Result<usize, Fault>
    ensures answer { result ≡ word_answer (length mem.old) at w p }
    ensures stored { mem.new ≡ if_taken (word_answer (length mem.old) at w p) (sets mem.old at (word_bytes w)) mem.old }
{
    if 65535 < w {
        return Err(Fault::NumberTooLarge);
    }
    if !fits(mem.len(), at, 2) {
        return Err(Fault::OutsideMemory);
    }
    put_word(mem, at, w);
    Ok(p)
}

// Block k gets the check word that its bytes ask.
pub fn fix_sum(reel: &mut [u8], k: usize, p: usize) -> Result<usize, Fault>
    ensures answer { result ≡ block_answer (length reel.old) k p }
    ensures stored { reel.new ≡ if_taken (block_answer (length reel.old) k p) (sets reel.old (check_place k) (check_bytes reel.old k)) reel.old }
{
    if reel.len() / Geometry::BLOCK <= k {
        return Err(Fault::OutsideReel);
    }
    let start = Geometry::BLOCK * k;
    let end = start + Geometry::BLOCK;
    let sum = word_sum(&reel[start..end], Geometry::SUMMED_WORDS);
    put_word(
        reel,
        start + Geometry::SUMMED,
        sum % Geometry::CHECK_MODULUS,
    );
    Ok(p)
}

// The record of data's first n bytes at block p.
pub fn lay_bytes(reel: &mut [u8], p: usize, data: &[u8], n: usize) -> Result<usize, Fault>
    ensures answer { result ≡ record_answer (length reel.old) p (length «data».now) n }
    ensures stored { reel.new ≡ if_taken (record_answer (length reel.old) p (length «data».now) n) (laid_at reel.old p (Object.record_of (take n «data».now))) reel.old }
{
    // What a block's length word can say, whatever a unit's limit: a script may lay a record that no unit takes.
    if 65535 < n {
        return Err(Fault::RecordTooLong);
    }
    if data.len() < n || data.len() % 2 != 0 {
        return Err(Fault::BeyondBuffers);
    }
    let m = tape::pieces(n);
    if !fits(reel.len() / Geometry::BLOCK, p, m) {
        return Err(Fault::OutsideReel);
    }
    reel::lay_record(reel, p, data, 0, n, false);
    Ok(p + m)
}

// A mark or a gap at block p.
// Kept: one test and one answer, whichever the flag says is laid.
pub fn lay_single(reel: &mut [u8], p: usize, gap: bool) -> Result<usize, Fault>
    ensures answer { result ≡ block_answer (length reel.old) p (p + 1) }
    ensures stored { reel.new ≡ if_taken (block_answer (length reel.old) p (p + 1)) (laid_at reel.old p (pick gap Object.gap Object.mark)) reel.old }
{
    if reel.len() / Geometry::BLOCK <= p {
        return Err(Fault::OutsideReel);
    }
    if gap {
        reel::lay_gap(reel, p);
    } else {
        reel::lay_mark(reel, p);
    }
    Ok(p + 1)
}

// What the line does while the cursor is at p, with data's first n bytes.
// Kept: a record asks that all of data is an even room (`record_answer`), so data goes whole, its count beside it.
fn build_at(
    b: Build,
    p: usize,
    data: &[u8],
    n: usize,
    mem: &mut [u8],
    reel: &mut [u8],
) -> Result<usize, Fault>
    requires { n ≤ length «data».now }
    ensures answer { result ≡ built_answer b p (take n «data».now) (length «data».now) n (length mem.old) (length reel.old) }
    ensures memory { mem.new ≡ built_memory b p (take n «data».now) mem.old }
    ensures reel { reel.new ≡ built_reel b p (take n «data».now) (length «data».now) n reel.old }
{
    match b {
        Build::Poke(at) => poke(mem, at, &data[..n], p, Fault::OutsideMemory),
        Build::PokeWord(at, w) => poke_word(mem, at, w, p),
        Build::PokeReel(at) => poke(reel, at, &data[..n], p, Fault::OutsideReel),
        Build::FixSum(k) => fix_sum(reel, k, p),
        Build::Record => lay_bytes(reel, p, data, n),
        Build::Mark => lay_single(reel, p, false),
        Build::Gap => lay_single(reel, p, true),
    }
}

pub fn settle(d: Desk, answer: Result<usize, Fault>) -> Result<Turn, Fault>
    ensures { result ≡ settled d answer }
{
    let cursor = answer?;
    still(Desk { cursor, ..d })
}

// The line changes only what is within the sizes.
pub fn build(
    d: Desk,
    b: Build,
    data: &[u8],
    n: usize,
    mem: &mut [u8],
    reel: &mut [u8],
) -> Result<Turn, Fault>
    requires { n ≤ length «data».now }
    ensures turn { result ≡ settled d (built_answer b d.cursor (take n «data».now) (length «data».now) n (length (take (min d.sizes.memory (length mem.old)) mem.old)) (length (take (min d.sizes.reel (length reel.old)) reel.old))) }
    ensures memory { mem.new ≡ sets mem.old 0 (built_memory b d.cursor (take n «data».now) (take (min d.sizes.memory (length mem.old)) mem.old)) }
    ensures reel { reel.new ≡ sets reel.old 0 (built_reel b d.cursor (take n «data».now) (length «data».now) n (take (min d.sizes.reel (length reel.old)) reel.old)) }
{
    let m = d.sizes.memory.min(mem.len());
    let r = d.sizes.reel.min(reel.len());
    settle(
        d,
        build_at(b, d.cursor, data, n, &mut mem[..m], &mut reel[..r]),
    )
}
