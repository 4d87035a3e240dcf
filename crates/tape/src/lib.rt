// What a reel is: its geometry, and the answers that reading it can give. The meaning stands in specs/.
#![tactic(auto)]

ghost use Rattle.std.specs.Prelude.{◌≡◌};
ghost use Rattle.tape.specs.Letters.{letter_of};
ghost use Rattle.tape.specs.Numbers.{eot_marker, pieces_of};

// The kinds of a block, as its word 0 has them.
pub const PIECE_KIND: usize = 1;

pub const MARK_KIND: usize = 2;

pub const GAP_KIND: usize = 3;

// A reel of so many blocks, with the numbers that all reels share.
#[derive(Clone, Copy)]
pub struct Geometry {
    pub capacity: usize,
}

impl Geometry {
    pub const BLOCK: usize = 512;

    // The three words before the data bytes.
    pub const HEAD: usize = 6;

    pub const DATA: usize = 504;

    // The bytes before the check word, and so its place; the same in words.
    pub const SUMMED: usize = 510;

    pub const SUMMED_WORDS: usize = 255;

    pub const CHECK_MODULUS: usize = 65535;

    // The blocks from the EOT marker to the reel's end: a gap and the longest record, 132 blocks, fit into them.
    pub const MARGIN: usize = 160;

    // The bytes of the longest record: what a block's length word can say.
    pub const RECORD_LIMIT: usize = 65535;

    pub const CAPACITY_LIMIT: usize = 65536;

    // The longest image that the listing takes, in bytes.
    pub const IMAGE_LIMIT: usize = 65536;

    // The block that the EOT marker stands at.
    pub fn marker(self) -> usize
        ensures { result ≡ eot_marker self.capacity }
    {
        if self.capacity < Geometry::MARGIN {
            0
        } else {
            self.capacity - Geometry::MARGIN
        }
    }
}

// How many blocks a record of n bytes takes. A quotient first: no sum that could wrap.
pub fn pieces(n: usize) -> usize
    ensures { result ≡ pieces_of n }
{
    if n % Geometry::DATA == 0 {
        n / Geometry::DATA
    } else {
        n / Geometry::DATA + 1
    }
}

// What is wrong with a block, in the order that the reader looks; also index, where a sound block is out of place.
#[derive(Clone, Copy, PartialEq, Eq)]
pub enum BlockFault {
    Kind,
    Length,
    Index,
    Padding,
    Check,
}

// The letter that stands for a fault, as a number of ASCII.
// Kept: no `From`, since a fault is not its letter, and `u8::from(f)` would say less.
pub fn letter(f: BlockFault) -> u8
    ensures { result ≡ letter_of f }
{
    match f {
        BlockFault::Kind => b'K',
        BlockFault::Length => b'N',
        BlockFault::Index => b'I',
        BlockFault::Padding => b'P',
        BlockFault::Check => b'C',
    }
}

// What a single block is read as.
#[derive(Clone, Copy, PartialEq, Eq)]
pub enum Block {
    // Piece i of a record of n bytes.
    Piece(usize, usize),
    Mark,
    Gap,
}

// What a pass over one object meets, and the position just beyond it.
#[derive(Clone, Copy)]
pub enum Met {
    Record(usize, usize),
    Mark(usize),
    Gap(usize),
    // The recorded end, or block 0 in reverse.
    Nothing,
}

// The first block at fault: its number, and what is wrong with it. A byte in front would lie over the first word of an end in a Result of
// both, which is then copied by its bytes.
#[derive(Clone, Copy)]
pub struct Damage {
    pub block: usize,
    pub fault: BlockFault,
}

// Why an image has no lines: the paper's L, S and X.
#[derive(Clone, Copy)]
pub enum ImageFault {
    TooLong,
    NotWhole,
    Bad(Damage),
}
