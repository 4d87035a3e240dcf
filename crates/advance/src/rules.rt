// What the steps ask of a command that is known.
ghost use Rattle.std.specs.Prelude.{Some, ◌≡◌, eqb};
ghost use Rattle.signals.specs.Codes.{command_of};
ghost use Rattle.advance.specs.Rules.{has_extent, is_tape, length_wrong, reverse_first, whole_count, writes};

use signals::{ByteCount, Command, Header, MarkCount, RecordCount, Residual};
use tape::Geometry;

// A header word that has a command, which step 5 found.
#[derive(Clone, Copy)]
pub struct Known {
    pub header: Header,
    pub command: Command,
    ghost known: { command_of header.code header.mode ≡ Some command },
}

impl Known {
    // The whole count: bytes for Read, records or marks for Position modes 0 to 3, else 0.
    pub fn whole_count(self, count: u16) -> Residual
        ensures { result ≡ whole_count self.header count }
    {
        match self.command {
            Command::ReadNext
            | Command::ReadPrevious
            | Command::RereadPrevious
            | Command::RereadNext => Residual::Bytes(ByteCount(count)),
            Command::RecordsForward | Command::RecordsReverse => {
                Residual::Records(RecordCount(count))
            }
            Command::MarksForward | Command::MarksReverse => Residual::Marks(MarkCount(count)),
            _ => Residual::Nothing,
        }
    }

    // Read, Write, Position, Format, rewind and unload.
    pub fn is_tape(self) -> bool
        ensures { result ≡ is_tape self.header }
    {
        !matches!(
            self.command,
            Command::WriteCharacteristics
                | Command::Release
                | Command::Clean
                | Command::Initialize
                | Command::GetStatus
        )
    }

    // Write or Format.
    pub fn writes_tape(self) -> bool
        ensures { result ≡ writes self.header }
    {
        matches!(
            self.command,
            Command::Write
                | Command::WriteRetry
                | Command::WriteMark
                | Command::Erase
                | Command::MarkRetry
        )
    }

    // The first stage goes in reverse.
    pub fn reverse_first(self) -> bool
        ensures { result ≡ reverse_first self.header }
    {
        matches!(
            self.command,
            Command::ReadPrevious
                | Command::RereadPrevious
                | Command::WriteRetry
                | Command::RecordsReverse
                | Command::MarksReverse
                | Command::MarkRetry
        )
    }

    // A Write of no bytes, or of more than a record can have.
    pub fn length_wrong(self, count: u16) -> bool
        ensures { result ≡ length_wrong self.header count }
    {
        matches!(self.command, Command::Write | Command::WriteRetry)
            & ((count == 0) | (Geometry::RECORD_LIMIT < count as usize))
    }

    // Write Characteristics, which names the message buffer.
    pub fn names_buffer(self) -> bool
        ensures { result ≡ eqb self.header.code 4 }
    {
        self.command == Command::WriteCharacteristics
    }

    // Read, Write Characteristics and Write have data in memory.
    pub fn has_extent(self) -> bool
        ensures { result ≡ has_extent self.header }
    {
        matches!(
            self.command,
            Command::ReadNext
                | Command::ReadPrevious
                | Command::RereadPrevious
                | Command::RereadNext
                | Command::WriteCharacteristics
                | Command::Write
                | Command::WriteRetry
        )
    }
}
