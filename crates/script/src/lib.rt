// The text of a session script: the words of a line, numbers and bytes in them, and what is printed of a result.
#![tactic(auto)]

mod fills;
mod prints;
mod reads;
mod sums;
mod words;

pub use fills::{append, copy, generate, hex_bytes, wipe, zeros};
pub use prints::{put_byte, put_bytes, put_decimal, put_hex, put_labelled, write_out};
pub use reads::{argument, number, numbers};
pub use sums::{crc, crc_table};
pub use words::{find_word, nth, place_in, span, trimmed};

// Why a line can't be read.
#[derive(Clone, Copy, PartialEq, Eq, Debug)]
pub enum Fault {
    UnknownWord,
    ExtraWord,
    NumberMissing,
    NumberWrong,
    NumberTooLarge,
    HexWrong,
    WordMissing,
    LineTooLong,
    BeyondBuffers,
    OutsideMemory,
    OutsideReel,
    OutsideTable,
    RecordTooLong,
    OtherRules,
}
