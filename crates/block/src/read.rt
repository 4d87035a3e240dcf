// The block reader. Kind, length, index, padding and check are looked at in this order.
ghost use Rattle.std.specs.Prelude.{true, ◌≡◌, ◌≤◌, length, Some};
ghost use Rattle.lists.specs.Words.{word_at};
ghost use Rattle.tape.specs.Layout.{piece_kind};
ghost use Rattle.tape.specs.Numbers.{block_bytes, data_bytes};
ghost use Rattle.tape.specs.Reading.{class_at, class_of, index_right, kind_of, kind_right, length_right, padding_right, used_of};
ghost use Rattle.block.specs.Halves.{body_right, wrong_in, head_right};
ghost use Rattle.block.specs.Kinds.{kind_named};

use crate::sum::{check_sum, check_word};
use lists::{word, word_sum};
use tape::{Block, BlockFault, Geometry};

// What word 0 says of a block.
#[derive(Clone, Copy, PartialEq, Eq)]
enum Kind {
    Piece,
    Mark,
    Gap,
}

// The three words before the data.
#[derive(Clone, Copy)]
struct Head {
    kind: usize,
    length: usize,
    index: usize,
}

impl Head {
    fn of(b: &[u8; Geometry::BLOCK]) -> Head
        ensures kind { result.kind ≡ word_at b.now 0 }
        ensures length { result.length ≡ word_at b.now 2 }
        ensures index { result.index ≡ word_at b.now 4 }
    {
        Head {
            kind: word(b, 0),
            length: word(b, 2),
            index: word(b, 4),
        }
    }

    // The one place where the number is asked.
    fn kind(self) -> Option<Kind>
        ensures is { result ≡ kind_named self.kind }
        ensures piece { result ≡ Some Kind.Piece → self.kind ≡ piece_kind }
    {
        match self.kind {
            tape::PIECE_KIND => Some(Kind::Piece),
            tape::MARK_KIND => Some(Kind::Mark),
            tape::GAP_KIND => Some(Kind::Gap),
            _ => None,
        }
    }

    fn kind_right(self) -> bool
        ensures { result ≡ kind_right self.kind }
    {
        self.kind().is_some()
    }

    fn length_right(self) -> bool
        ensures { result ≡ length_right self.kind self.length }
    {
        match self.kind() {
            Some(Kind::Piece) => (1 <= self.length) & (self.length <= Geometry::RECORD_LIMIT),
            _ => self.length == 0,
        }
    }

    fn index_right(self) -> bool
        ensures { result ≡ index_right self.kind self.length self.index }
    {
        match self.kind() {
            Some(Kind::Piece) => self.index < tape::pieces(self.length),
            _ => self.index == 0,
        }
    }

    fn right(self) -> bool
        ensures { result ≡ head_right self.kind self.length self.index }
    {
        self.kind_right() & (self.length_right() & self.index_right())
    }

    // How many data bytes the block uses.
    fn used(self) -> usize
        requires { head_right self.kind self.length self.index ≡ true }
        ensures is { result ≡ used_of self.kind self.length self.index }
        ensures low { result ≤ data_bytes }
    {
        match self.kind() {
            Some(Kind::Piece) => (self.length - Geometry::DATA * self.index).min(Geometry::DATA),
            _ => 0,
        }
    }

    // What a block with this head is, if all of it is right.
    fn kind_of(self) -> Block
        ensures { result ≡ kind_of self.kind self.length self.index }
    {
        match self.kind() {
            Some(Kind::Piece) => Block::Piece(self.length, self.index),
            Some(Kind::Mark) => Block::Mark,
            _ => Block::Gap,
        }
    }
}

// Padding and check in one pass: the words in use are summed, the head's three apart, then those that must be 0. An odd last data byte shares
// its word.
fn padded_right(b: &[u8; Geometry::BLOCK], used: usize) -> bool
    requires { used ≤ data_bytes }
    ensures { result ≡ body_right b.now used }
{
    let cut = (Geometry::HEAD + used + 1) / 2 * 2;
    let head = word_sum(b, 3) + check_sum(&b[Geometry::HEAD..cut]);
    let rest = check_sum(&b[cut..Geometry::SUMMED]);
    let shared = (used % 2 == 0) | (b[Geometry::HEAD + used] == 0);
    (shared & (rest == 0)) & (word(b, Geometry::SUMMED) == (head + rest) % Geometry::CHECK_MODULUS)
}

// Padding alone.
fn padding_right(b: &[u8; Geometry::BLOCK], used: usize) -> bool
    requires { used ≤ data_bytes }
    ensures { result ≡ padding_right b.now used }
{
    b[Geometry::HEAD + used..Geometry::SUMMED]
        .iter()
        .all(|x| *x == 0)
}

// All data bytes are in use, so there is no padding. Its own function, since the sum then runs over a fixed number of words.
fn full_right(b: &[u8; Geometry::BLOCK]) -> bool
    ensures { result ≡ body_right b.now data_bytes }
{
    word(b, Geometry::SUMMED) == check_word(b)
}

fn body_right(b: &[u8; Geometry::BLOCK], used: usize) -> bool
    requires { used ≤ data_bytes }
    ensures { result ≡ body_right b.now used }
{
    if used == Geometry::DATA {
        return full_right(b);
    }
    padded_right(b, used)
}

// The first thing that is wrong with a block that isn't right; the check, if nothing else is. Only a block known to be wrong comes here, and all of it is
// read again: so a sound one costs nothing more.
fn wrong_in(b: &[u8; Geometry::BLOCK]) -> BlockFault
    ensures { result ≡ wrong_in b.now }
{
    let head = Head::of(b);
    if !head.kind_right() {
        return BlockFault::Kind;
    }
    if !head.length_right() {
        return BlockFault::Length;
    }
    if !head.index_right() {
        return BlockFault::Index;
    }
    if !padding_right(b, head.used()) {
        return BlockFault::Padding;
    }
    BlockFault::Check
}

fn class_of(b: &[u8; Geometry::BLOCK]) -> Result<Block, BlockFault>
    ensures { result ≡ class_of b.now }
{
    let head = Head::of(b);
    if !head.right() {
        return Err(wrong_in(b));
    }
    if !body_right(b, head.used()) {
        return Err(wrong_in(b));
    }
    Ok(head.kind_of())
}

// Block k of a reel; one that the slice does not hold whole has no place on it, so that every number is some answer.
pub fn read_block(reel: &[u8], k: usize) -> Result<Block, BlockFault>
    ensures { result ≡ class_at reel.now k }
{
    let (blocks, _) = reel.as_chunks::<{ Geometry::BLOCK }>();
    if blocks.len() <= k {
        return Err(BlockFault::Index);
    }
    class_of(&blocks[k])
}
