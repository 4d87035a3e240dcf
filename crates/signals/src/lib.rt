// The register header: bits and words of the TS11, the command codes, the packet's words, the three counters and the message.
#![tactic(auto)]

mod codes;
mod counts;
mod message;
mod packet;

pub use codes::{Command, decode};
pub use counts::{ByteCount, MarkCount, RecordCount, Residual};
pub use message::{End, Status, flag, message_of, put_message};
pub use packet::{Header, Packet, fetch, has_pointer, header_of};

// A command packet: four words.
pub const PACKET_BYTES: usize = 8;

// XST0, from bit 15 on: what the command found, then the unit's condition.
pub const TMK: u16 = 0x8000;

pub const RLS: u16 = 0x4000;

pub const LET: u16 = 0x2000;

pub const RLL: u16 = 0x1000;

pub const WLE: u16 = 0x0800;

pub const NEF: u16 = 0x0400;

pub const ILC: u16 = 0x0200;

pub const ILA: u16 = 0x0100;

pub const MOT: u16 = 0x0080;

pub const ONL: u16 = 0x0040;

pub const IE: u16 = 0x0020;

pub const VCK: u16 = 0x0010;

pub const PED: u16 = 0x0008;

pub const WLK: u16 = 0x0004;

pub const BOT: u16 = 0x0002;

pub const EOT: u16 = 0x0001;

// XST3.
pub const OPI: u16 = 0x0040;

pub const REV: u16 = 0x0020;

pub const RIB: u16 = 0x0001;

// Pointers have 18 bits.
pub const POINTER_LIMIT: usize = 0x40000;

// The message's length in bytes, and the least that a message buffer may have.
pub const MESSAGE: usize = 14;
