// A line of a session script as a value: what it asks for, its words and numbers read.
#![tactic(auto)]

mod arranges;
mod builds;
mod calls;
mod gives;
mod makes;
mod rules;
mod tables;
mod texts;
mod verbs;
mod words;

pub use gives::fill;
use state::Act;
pub use texts::line_of;

// In bytes.
#[derive(Clone, Copy, Default)]
pub struct Sizes {
    pub memory: usize,
    pub reel: usize,
    pub table: usize,
    pub journal: usize,
}

// The lengths that the calls are handed, the table's as it is where none is said.
#[derive(Clone, Copy)]
pub struct Cuts {
    pub memory: usize,
    pub reel: usize,
    pub journal: usize,
    pub table: Option<usize>,
}

// What of a session a line can set, in the order of its words.
#[derive(Clone, Copy)]
pub enum Field {
    Position,
    End,
    Pointer,
    Class,
    Rmr,
    Nxm,
    Nba,
    Ssr,
    Online,
    Locked,
    Vck,
    UnitOwns,
    Pending,
    Eai,
    Ess,
    Enb,
    Address,
    Length,
    ReleaseIe,
    Used,
    Objects,
    Memory,
    Blocks,
    Journal,
}

// Lines that set the desk up.
#[derive(Clone, Copy)]
pub enum Arrange {
    Case,
    Sizes(Sizes),
    Cut(Cuts),
    Uncut,
    // A field of the session, none for a number that no field has, and what it is made.
    Set(Option<Field>, usize),
}

// Lines that put bytes into memory or reel with no call: at a place, in a block, or at the cursor.
#[derive(Clone, Copy)]
pub enum Build {
    Poke(usize),
    PokeWord(usize, usize),
    PokeReel(usize),
    FixSum(usize),
    Record,
    Mark,
    Gap,
}

// Lines about the table with no call: its length, or bytes at a place.
#[derive(Clone, Copy)]
pub enum Table {
    Index(usize),
    Poke(usize),
}

// A step that is asked for.
#[derive(Clone, Copy)]
pub enum Ask {
    WriteTsdb(u16),
    WriteTssr,
    Operate(Act),
    // The bytes that the line gives go to a place.
    HostStore(usize),
    Advance,
}

#[derive(Clone, Copy)]
pub enum Call {
    // The recorded end; whether on line; whether locked.
    Mount(usize, bool, bool),
    ReadTsba,
    ReadTssr,
    Step(Ask),
    StepBack,
}

#[derive(Clone, Copy)]
pub enum Does {
    Nothing,
    Arranges(Arrange),
    Builds(Build),
    Tables(Table),
    Calls(Call),
}

// The bytes that a line gives: none, those of a word, or so many made from a seed.
#[derive(Clone, Copy)]
pub enum Given {
    Nothing,
    Word(usize),
    Made(usize, usize),
}

#[derive(Clone, Copy)]
pub struct Line {
    pub does: Does,
    pub given: Given,
}
