// Call lines.
#![tactic(auto, unfolding(crate::specs::Calling::end_of, crate::specs::Calling::mount_line, crate::specs::Calling::tsdb_line, crate::specs::Calling::tssr_line, crate::specs::Calling::reg_line, crate::specs::Calling::op_line, crate::specs::Calling::host_line, crate::specs::Calling::hostn_line))]

ghost use Rattle.std.specs.Prelude.{◌≡◌};
ghost use Rattle.lines.specs.Calling.{end_of, host_line, hostn_line, mount_line, op_line, reg_line, tsdb_line, tssr_line};

use crate::makes::asks;
use crate::words::named;
use crate::{Ask, Call, Does, Given, Line};
use script::{Fault, argument, nth, numbers};
use state::Act;

fn end_in(text: &[u8], cursor: usize) -> Result<usize, Fault>
    ensures { result ≡ end_of text.now cursor }
{
    if nth(text, 1) == b"cursor".as_slice() {
        return Ok(cursor);
    }
    argument(text, 1)
}

pub fn mount_line(text: &[u8], cursor: usize) -> Result<Line, Fault>
    ensures { result ≡ mount_line text.now cursor }
{
    let end = end_in(text, cursor)?;
    let (online, locked, _) = numbers(text, 2, 3)?;
    Ok(Does::Calls(Call::Mount(end, online != 0, locked != 0)).plain())
}

pub fn tsdb_line(text: &[u8]) -> Result<Line, Fault>
    ensures { result ≡ tsdb_line text.now }
{
    let w = argument(text, 1)?;
    let word = u16::try_from(w).map_err(|_| Fault::NumberTooLarge)?;
    Ok(asks(Ask::WriteTsdb(word), Given::Nothing))
}

pub fn tssr_line(text: &[u8]) -> Result<Line, Fault>
    ensures { result ≡ tssr_line text.now }
{
    let _ = argument(text, 1)?;
    Ok(asks(Ask::WriteTssr, Given::Nothing))
}

pub fn reg_line(text: &[u8]) -> Result<Line, Fault>
    ensures { result ≡ reg_line text.now }
{
    let registers = [Call::ReadTsba, Call::ReadTssr];
    let read = named(b"tsba tssr", &registers, text, 1)?;
    Ok(Does::Calls(read).plain())
}

pub fn op_line(text: &[u8]) -> Result<Line, Fault>
    ensures { result ≡ op_line text.now }
{
    let acts = [Act::OnLine, Act::OffLine, Act::Lock, Act::Unlock];
    let act = named(b"on off lock unlock", &acts, text, 1)?;
    Ok(asks(Ask::Operate(act), Given::Nothing))
}

pub fn host_line(text: &[u8]) -> Result<Line, Fault>
    ensures { result ≡ host_line text.now }
{
    let at = argument(text, 1)?;
    Ok(asks(Ask::HostStore(at), Given::Word(2)))
}

pub fn hostn_line(text: &[u8]) -> Result<Line, Fault>
    ensures { result ≡ hostn_line text.now }
{
    let (at, n, seed) = numbers(text, 1, 3)?;
    Ok(asks(Ask::HostStore(at), Given::Made(n, seed)))
}
