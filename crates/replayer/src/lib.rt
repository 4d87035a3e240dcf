// Replays a session script: each case and each call prints its line, and a line that can't be read ends the run.
#![tactic(auto)]

mod asks;
mod buffers;
mod prints;
mod runs;
mod scripts;
mod turns;

use buffers::Buffers;
use runs::Run;
use script::zeros;
use std::io::{self, Read, Write};

// No contract here says more than that it returns. A read or a write that fails ends the replay, and its error is the answer.
pub fn replay<R: Read, W: Write>(from: &mut R, to: &mut W) -> io::Result<()> {
    // Made here and lent from here, since a function that hands it back copies it, and the stack doesn't hold that.
    let mut buffers = Buffers {
        memory: zeros(),
        reel: zeros(),
        table: zeros(),
        journal: zeros(),
    };
    let mut run = Run::new();
    run.run(&mut buffers, from, to)
}
