// The commands, by code and mode.
ghost use Rattle.std.specs.Prelude.{◌≡◌};
ghost use Rattle.signals.specs.Codes.{command_of, control_mode, format_mode, position_mode, read_mode, single_mode, write_mode};

#[derive(Clone, Copy, PartialEq, Eq)]
pub enum Command {
    ReadNext,
    ReadPrevious,
    RereadPrevious,
    RereadNext,
    WriteCharacteristics,
    Write,
    WriteRetry,
    RecordsForward,
    RecordsReverse,
    MarksForward,
    MarksReverse,
    Rewind,
    WriteMark,
    Erase,
    MarkRetry,
    Release,
    Unload,
    Clean,
    Initialize,
    GetStatus,
}

#[tactic(auto, unfolding(crate::specs::Codes::read_mode))]
fn decode_read(mode: usize) -> Option<Command>
    ensures { result ≡ read_mode mode }
{
    match mode {
        0 => Some(Command::ReadNext),
        1 => Some(Command::ReadPrevious),
        2 => Some(Command::RereadPrevious),
        3 => Some(Command::RereadNext),
        _ => None,
    }
}

#[tactic(auto, unfolding(crate::specs::Codes::position_mode))]
fn decode_position(mode: usize) -> Option<Command>
    ensures { result ≡ position_mode mode }
{
    match mode {
        0 => Some(Command::RecordsForward),
        1 => Some(Command::RecordsReverse),
        2 => Some(Command::MarksForward),
        3 => Some(Command::MarksReverse),
        4 => Some(Command::Rewind),
        _ => None,
    }
}

#[tactic(auto, unfolding(crate::specs::Codes::format_mode))]
fn decode_format(mode: usize) -> Option<Command>
    ensures { result ≡ format_mode mode }
{
    match mode {
        0 => Some(Command::WriteMark),
        1 => Some(Command::Erase),
        2 => Some(Command::MarkRetry),
        _ => None,
    }
}

#[tactic(auto, unfolding(crate::specs::Codes::control_mode))]
fn decode_control(mode: usize) -> Option<Command>
    ensures { result ≡ control_mode mode }
{
    match mode {
        0 => Some(Command::Release),
        1 => Some(Command::Unload),
        2 => Some(Command::Clean),
        _ => None,
    }
}

#[tactic(auto, unfolding(crate::specs::Codes::write_mode))]
fn decode_write(mode: usize) -> Option<Command>
    ensures { result ≡ write_mode mode }
{
    match mode {
        0 => Some(Command::Write),
        2 => Some(Command::WriteRetry),
        _ => None,
    }
}

// A command that has mode 0 alone.
#[tactic(auto, unfolding(crate::specs::Codes::single_mode))]
fn decode_single(mode: usize, c: Command) -> Option<Command>
    ensures { result ≡ single_mode c mode }
{
    match mode {
        0 => Some(c),
        _ => None,
    }
}

// The command of a code and a mode; all else is none.
#[tactic(auto, unfolding(crate::specs::Codes::command_of))]
pub fn decode(code: usize, mode: usize) -> Option<Command>
    ensures { result ≡ command_of code mode }
{
    match code {
        1 => decode_read(mode),
        4 => decode_single(mode, Command::WriteCharacteristics),
        5 => decode_write(mode),
        8 => decode_position(mode),
        9 => decode_format(mode),
        10 => decode_control(mode),
        11 => decode_single(mode, Command::Initialize),
        15 => decode_single(mode, Command::GetStatus),
        _ => None,
    }
}
