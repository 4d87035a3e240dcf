// The same program as replay, held to a longer script.
// Kept: a program of its own, since a program is held to one input.
#![tactic(auto)]

use std::io;

fn main(rt: HostRuntime) -> io::Result<()> {
    let mut from = rt.stdin();
    let mut to = rt.stdout();
    replayer::replay(&mut from, &mut to)
}
