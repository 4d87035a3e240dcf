// Passing one object, forward or in reverse: one walk for both, since only the order of the pieces differs.
ghost use Rattle.std.specs.Prelude.{◌≡◌, ◌+◌, ◌-◌, ◌≤◌, ◌<◌};
ghost use Rattle.tape.specs.Numbers.{pieces_of};
ghost use Rattle.tape.specs.Pass.{ahead, beyond, fault_of, first_met, is_piece, lowest, order_met, passed, pieces_met, record_met};

use block::read_block;
use tape::{Block, BlockFault, Damage, Met};

fn is_piece(b: Result<Block, BlockFault>, n: usize, i: usize) -> bool
    ensures { result ≡ is_piece b n i }
{
    b == Ok(Block::Piece(n, i))
}

// What is wrong with a block that can't be taken: its own fault, and if it has none, its place.
#[tactic(auto, unfolding(tape::specs::Pass::fault_of))]
fn fault_of(b: Result<Block, BlockFault>) -> BlockFault
    ensures { result ≡ fault_of b }
{
    match b {
        Err(f) => f,
        Ok(_) => BlockFault::Index,
    }
}

// Which way, from which position, and up to which recorded end.
#[derive(Clone, Copy)]
struct Way {
    reverse: bool,
    position: usize,
    end: usize,
}

impl Way {
    // How many blocks lie ahead: up to the recorded end, or down to block 0.
    fn ahead(self) -> usize
        ensures { result ≡ ahead self.reverse self.position self.end }
    {
        if self.reverse {
            return self.position;
        }
        self.end.saturating_sub(self.position)
    }

    fn first_met(self) -> usize
        requires { 1 ≤ ahead self.reverse self.position self.end }
        ensures { result ≡ first_met self.reverse self.position }
    {
        if self.reverse {
            self.position - 1
        } else {
            self.position
        }
    }

    fn beyond(self, m: usize) -> usize
        requires { m ≤ ahead self.reverse self.position self.end }
        ensures { result ≡ beyond self.reverse self.position m }
    {
        if self.reverse {
            self.position - m
        } else {
            self.position + m
        }
    }

    fn order_met(self, m: usize, j: usize) -> usize
        requires { j < m }
        ensures { result ≡ order_met self.reverse m j }
    {
        if self.reverse { m - 1 - j } else { j }
    }

    // The pieces due after the first, in the order met: the first at fault, else what was met.
    fn pieces_met(self, reel: &[u8], n: usize, m: usize, whole: Met) -> Result<Met, Damage>
        requires { (1 ≤ m) × (m ≤ ahead self.reverse self.position self.end) }
        ensures { result ≡ pieces_met reel.now self.reverse n (lowest self.reverse self.position m) m 1 (m - 1) whole }
    {
        // From the lower bound of the record's blocks.
        let p = if self.reverse {
            self.position - m
        } else {
            self.position
        };
        for j in 1..m {
            let i = self.order_met(m, j);
            let k = p + i;
            let b = read_block(reel, k);
            if !is_piece(b, n, i) {
                return Err(Damage {
                    fault: fault_of(b),
                    block: k,
                });
            }
        }
        Ok(whole)
    }

    // A record of n bytes, met at piece i.
    fn record_met(self, reel: &[u8], n: usize, i: usize) -> Result<Met, Damage>
        requires { (1 ≤ ahead self.reverse self.position self.end) × (1 ≤ pieces_of n) }
        ensures { result ≡ record_met reel.now self.reverse self.position self.end n i }
    {
        let m = tape::pieces(n);
        let due = (i == self.order_met(m, 0)) & (m <= self.ahead());
        if !due {
            return Err(Damage {
                fault: BlockFault::Index,
                block: self.first_met(),
            });
        }
        self.pieces_met(reel, n, m, Met::Record(n, self.beyond(m)))
    }
}

// What passing one object from position p meets, on a reel recorded up to e.
pub fn pass(reel: &[u8], reverse: bool, p: usize, e: usize) -> Result<Met, Damage>
    ensures { result ≡ passed reel.now reverse p e }
{
    let way = Way {
        reverse,
        position: p,
        end: e,
    };
    if way.ahead() == 0 {
        return Ok(Met::Nothing);
    }
    let k = way.first_met();
    let b = read_block(reel, k);
    match b {
        Ok(Block::Piece(n, i)) => way.record_met(reel, n, i),
        Ok(Block::Mark) => Ok(Met::Mark(way.beyond(1))),
        Ok(Block::Gap) => Ok(Met::Gap(way.beyond(1))),
        Err(fault) => Err(Damage { fault, block: k }),
    }
}
