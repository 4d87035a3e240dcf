// The parts of what a command is about to do: what is moved to memory and what is laid on the reel.
ghost use Rattle.std.specs.Prelude.{◌≡◌, ◌+◌, ◌≤◌};
ghost use Rattle.tape.specs.Numbers.{capacity_limit};
ghost use Rattle.motions.specs.Parts.{laid_blocks, moved_length, no_lay, no_move, object_blocks, resting};

use signals::End;
use state::Tape;

// The bytes that a Read moves: of the record of `length` bytes at block `first`, to a buffer of `count` bytes at `pointer`.
#[derive(Clone, Copy)]
pub struct Moved {
    pub first: usize,
    pub length: usize,
    pub reverse: bool,
    pub pointer: usize,
    pub count: u16,
    pub swb: bool,
}

#[derive(Clone, Copy)]
pub enum ObjectKind {
    Nothing,
    Mark,
    Gap,
    // The bytes at the places from `pointer` on.
    Record,
}

// What is laid at block `at`: for a retry a gap first, then the object.
// Kept: nothing laid, and nothing moved, are values of their own (`no_lay`, `no_move`): definitions and theorems speak of any plan's parts (`laid_blocks`, `moved_on`).
#[derive(Clone, Copy)]
pub struct Laid {
    pub at: usize,
    pub gap_first: bool,
    pub object: ObjectKind,
    pub pointer: usize,
    pub length: u16,
    pub swb: bool,
}

// How a command ended: what it says, where the tape stands, what is moved and laid.
#[derive(Clone, Copy)]
pub struct Ending {
    pub end: End,
    pub tape: Tape,
    pub moved: Moved,
    pub laid: Laid,
}

pub fn no_move() -> Moved
    ensures { result ≡ no_move }
{
    Moved {
        first: 0,
        length: 0,
        reverse: false,
        pointer: 0,
        count: 0,
        swb: false,
    }
}

pub fn no_lay() -> Laid
    ensures { result ≡ no_lay }
{
    Laid {
        at: 0,
        gap_first: false,
        object: ObjectKind::Nothing,
        pointer: 0,
        length: 0,
        swb: false,
    }
}

// An end that moves and lays nothing.
pub fn rest(end: End, tape: Tape) -> Ending
    ensures { result ≡ resting end tape }
{
    let moved = no_move();
    let laid = no_lay();
    Ending {
        end,
        tape,
        moved,
        laid,
    }
}

fn object_blocks(o: ObjectKind, length: u16) -> usize
    ensures is { result ≡ object_blocks o length }
    ensures low { result ≤ capacity_limit }
{
    match o {
        ObjectKind::Nothing => 0,
        ObjectKind::Mark => 1,
        ObjectKind::Gap => 1,
        ObjectKind::Record => tape::pieces(length as usize),
    }
}

// How many blocks are laid.
pub fn laid_blocks(l: Laid) -> usize
    ensures is { result ≡ laid_blocks l }
    ensures low { result ≤ capacity_limit + 1 }
{
    let o = l.object;
    let n = object_blocks(o, l.length);
    if l.gap_first { n + 1 } else { n }
}

// How many memory bytes a Read stores.
#[tactic(auto, unfolding(crate::specs::Parts::moved_length))]
pub fn moved_bytes(m: Moved) -> usize
    ensures { result ≡ moved_length m }
{
    m.length.min(usize::from(m.count))
}
