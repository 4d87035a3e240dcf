// Lines that set the desk up.
#![tactic(auto, unfolding(crate::specs::Arranging::sizes_line, crate::specs::Arranging::cut_line, crate::specs::Arranging::lens_line, crate::specs::Arranging::field_of, crate::specs::Arranging::field_words, crate::specs::Arranging::fields, crate::specs::Arranging::number_of, crate::specs::Arranging::set_to, crate::specs::Arranging::set_line))]

ghost use Rattle.std.specs.Prelude.{◌≡◌};
ghost use Rattle.lines.specs.Arranging.{cut_line, field_of, lens_line, set_line, set_to, sizes_line, too_wide};

use crate::words::{has_word, named};
use crate::{Arrange, Cuts, Does, Field, Line, Sizes};
use script::{Fault, argument, nth, numbers};
use tape::Geometry;

// No reel of the program has so many blocks that a cut matters.
const MOST_BLOCKS: usize = 1000000;

// The table has eight bytes for each block, unless a line says another length.
pub fn sizes_line(text: &[u8]) -> Result<Line, Fault>
    ensures { result ≡ sizes_line text.now }
{
    let (memory, blocks, journal) = numbers(text, 1, 3)?;
    let blocks = blocks.min(MOST_BLOCKS);
    let sizes = Sizes {
        memory,
        reel: Geometry::BLOCK * blocks,
        table: 8 * blocks,
        journal,
    };
    Ok(Does::Arranges(Arrange::Sizes(sizes)).plain())
}

// Without a fourth number the table stays as it is.
fn cut_line(text: &[u8], memory: usize, reel: usize, journal: usize) -> Result<Line, Fault>
    ensures { result ≡ cut_line text.now memory reel journal }
{
    let mut cuts = Cuts {
        memory,
        reel,
        journal,
        table: None,
    };
    if has_word(text, 4) {
        cuts.table = Some(argument(text, 4)?);
    }
    Ok(Does::Arranges(Arrange::Cut(cuts)).plain())
}

pub fn lens_line(text: &[u8]) -> Result<Line, Fault>
    ensures { result ≡ lens_line text.now }
{
    if nth(text, 1) == b"off".as_slice() {
        return Ok(Does::Arranges(Arrange::Uncut).plain());
    }
    let (memory, reel, journal) = numbers(text, 1, 3)?;
    cut_line(text, memory, reel, journal)
}

const FIELDS: [Field; 24] = [
    Field::Position,
    Field::End,
    Field::Pointer,
    Field::Class,
    Field::Rmr,
    Field::Nxm,
    Field::Nba,
    Field::Ssr,
    Field::Online,
    Field::Locked,
    Field::Vck,
    Field::UnitOwns,
    Field::Pending,
    Field::Eai,
    Field::Ess,
    Field::Enb,
    Field::Address,
    Field::Length,
    Field::ReleaseIe,
    Field::Used,
    Field::Objects,
    Field::Memory,
    Field::Blocks,
    Field::Journal,
];

fn field_in(text: &[u8]) -> Result<Field, Fault>
    ensures { result ≡ field_of text.now }
{
    named(
        b"pos end ptr class rmr nxm nba ssr online lock vck unit_owns attn eai ess enb msgaddr msglen release_ie used objects memlen reelblocks jrnllen",
        &FIELDS,
        text,
        1,
    )
}

// Is v more than the field can hold? The message buffer's address and length have 32 bits.
fn too_wide(field: Field, v: usize) -> bool
    ensures { result ≡ too_wide field v }
{
    matches!(field, Field::Address | Field::Length) && u32::try_from(v).is_err()
}

fn set_to(field: Field, v: usize) -> Result<Line, Fault>
    ensures { result ≡ set_to field v }
{
    if too_wide(field, v) {
        return Err(Fault::NumberTooLarge);
    }
    Ok(Does::Arranges(Arrange::Set(Some(field), v)).plain())
}

pub fn set_line(text: &[u8]) -> Result<Line, Fault>
    ensures { result ≡ set_line text.now }
{
    let v = argument(text, 2)?;
    set_to(field_in(text)?, v)
}
