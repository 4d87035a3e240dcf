// The state's block: the head of a journal entry and a 0, with the used journal and the mount's journal length where an entry has its data's
// place and length. A session has one block, and a block that no session has is refused.
ghost use Rattle.std.specs.Prelude.{◌≡◌};
ghost use Rattle.stateblock.specs.Block.{entry_with, is_block, rest_zero, session_in, session_with};
ghost use Rattle.stateblock.specs.Block.{block_after};

use commands::{Answer, Done};
use entries::{Entry, HEAD, entry_of, flags_right, head_at, numbers_of, put_head};
use lists::{number_at, put_number};
use touched::Touched;
use worlds::Session;

// The block's length.
pub const STATE: usize = 128;

fn entry_with(s: Session) -> Entry
    ensures { result ≡ entry_with s }
{
    Entry {
        unit: s.unit,
        objects: s.objects,
        touched: Touched {
            data_at: s.used,
            data_length: s.journal,
            ..Touched::default()
        },
        transport: 0,
    }
}

fn session_with(e: Entry) -> Session
    ensures { result ≡ session_with e }
{
    Session {
        unit: e.unit,
        objects: e.objects,
        used: e.touched.data_at,
        journal: e.touched.data_length,
    }
}

// The numbers that a session has no use for are 0.
fn rest_zero(n: [u32; 31]) -> bool
    ensures { result ≡ rest_zero n }
{
    let free = (n[29] == 0) & (n[30] == 0);
    (n[23] == 0) & ((n[24] == 0) & ((n[25] == 0) & ((n[26] == 0) & ((n[27] == 0) & free))))
}

// Whether the bytes are the block of some session.
#[tactic(auto, unfolding(crate::specs::Block::is_block))]
pub fn block_right(b: &[u8; 128]) -> bool
    ensures { result ≡ is_block b.now }
{
    let n = head_at(b, 0);
    flags_right(n) & (rest_zero(n) & (number_at(b, HEAD) == 0))
}

// What a block is read as; every block is read as some session.
pub fn session_in(b: &[u8; 128]) -> Session
    ensures { result ≡ session_in b.now }
{
    session_with(entry_of(head_at(b, 0), 0))
}

// The session after a step is written over the block; any other answer leaves the block alone.
pub fn close(b: &mut [u8; 128], a: Answer, s: Session)
    ensures { b.new ≡ block_after b.old a s }
{
    match a {
        Ok(done) => match done {
            Done::Step(_) => {
                put_head(b, 0, numbers_of(entry_with(s)));
                put_number(b, HEAD, 0);
            }
            Done::Idle => {}
        },
        Err(_) => {}
    }
}
