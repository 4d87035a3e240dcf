// Lines that set the desk up.
#![tactic(auto, unfolding(crate::specs::Arranges::resized, crate::specs::Arranges::cut_to, crate::specs::Arranges::set_to, crate::specs::Arranges::arranged, crate::specs::Arranges::cleared_unless, crate::specs::Arranges::cleared_by))]

ghost use Rattle.std.specs.Prelude.{◌≡◌};
ghost use Rattle.script.specs.Fills.{wiped};
ghost use Rattle.desk.specs.Desks.{room_of};
ghost use Rattle.desk.specs.Turns.{still};
ghost use Rattle.desk.specs.Arranges.{arranged, cleared_by, cleared_unless, cut_to, resized, set_to, started_case, uncut_of};

use crate::desk::{beyond, cleared, cut_sizes, trim};
use crate::{Desk, Said, Turn};
use lines::{Arrange, Cuts, Field, Sizes};
use results::with_field;
use script::Fault;

// A line that prints nothing.
pub fn still(desk: Desk) -> Result<Turn, Fault>
    ensures { result ≡ still desk }
{
    let said = Said::Nothing;
    Ok(Turn { desk, said })
}

fn start_case(d: Desk) -> Result<Turn, Fault>
    ensures { result ≡ started_case d }
{
    let desk = cleared(d);
    let said = Said::Itself;
    Ok(Turn { desk, said })
}

fn resize(d: Desk, sizes: Sizes, room: Sizes) -> Result<Turn, Fault>
    ensures { result ≡ resized d sizes room }
{
    if beyond(sizes, room) {
        return Err(Fault::BeyondBuffers);
    }
    still(Desk { sizes, ..d })
}

fn cut_to(d: Desk, cuts: Cuts, room: Sizes) -> Result<Turn, Fault>
    ensures { result ≡ cut_to d cuts room }
{
    if beyond(cut_sizes(cuts, 0), room) {
        return Err(Fault::BeyondBuffers);
    }
    let cuts = Some(cuts);
    still(Desk { cuts, ..d })
}

fn uncut(d: Desk) -> Result<Turn, Fault>
    ensures { result ≡ uncut_of d }
{
    let cuts = None;
    still(Desk { cuts, ..d })
}

fn set(d: Desk, field: Option<Field>, v: usize) -> Result<Turn, Fault>
    ensures { result ≡ set_to d field v }
{
    let field = field.ok_or(Fault::BeyondBuffers)?;
    let session = with_field(d.session, field, v);
    still(Desk { session, ..d })
}

fn arrange_desk(d: Desk, a: Arrange, room: Sizes) -> Result<Turn, Fault>
    ensures { result ≡ arranged d a room }
{
    match a {
        Arrange::Case => start_case(d),
        Arrange::Sizes(s) => resize(d, s, room),
        Arrange::Cut(cuts) => cut_to(d, cuts, room),
        Arrange::Uncut => uncut(d),
        Arrange::Set(field, v) => set(d, field, v),
    }
}

fn cleared_unless(d: Desk, s: Sizes, room: Sizes) -> Sizes
    ensures { result ≡ cleared_unless d s room }
{
    if beyond(s, room) {
        Sizes::default()
    } else {
        d.sizes
    }
}

// The lengths of what goes back to zero: the bytes beyond the sizes are zero between calls.
fn cleared_by(d: Desk, a: Arrange, room: Sizes) -> Sizes
    ensures { result ≡ cleared_by d a room }
{
    match a {
        Arrange::Case => d.sizes,
        Arrange::Sizes(s) => cleared_unless(d, s, room),
        Arrange::Cut(_) => Sizes::default(),
        Arrange::Uncut => Sizes::default(),
        Arrange::Set(_, _) => Sizes::default(),
    }
}

pub fn arrange(
    d: Desk,
    a: Arrange,
    mem: &mut [u8],
    reel: &mut [u8],
    table: &mut [u8],
    jrnl: &mut [u8],
) -> Result<Turn, Fault>
    ensures turn { result ≡ arranged d a (room_of mem.old reel.old table.old jrnl.old) }
    ensures memory { mem.new ≡ wiped mem.old 0 (cleared_by d a (room_of mem.old reel.old table.old jrnl.old)).memory }
    ensures reel { reel.new ≡ wiped reel.old 0 (cleared_by d a (room_of mem.old reel.old table.old jrnl.old)).reel }
    ensures table { table.new ≡ wiped table.old 0 (cleared_by d a (room_of mem.old reel.old table.old jrnl.old)).table }
    ensures journal { jrnl.new ≡ wiped jrnl.old 0 (cleared_by d a (room_of mem.old reel.old table.old jrnl.old)).journal }
{
    let room = Sizes {
        memory: mem.len(),
        reel: reel.len(),
        table: table.len(),
        journal: jrnl.len(),
    };
    trim(
        Sizes::default(),
        cleared_by(d, a, room),
        mem,
        reel,
        table,
        jrnl,
    );
    arrange_desk(d, a, room)
}
