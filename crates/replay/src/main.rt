// Replays the session script on standard input, and prints the result lines.
#![tactic(auto)]

use std::io;

fn main(rt: HostRuntime) -> io::Result<()> {
    let mut from = rt.stdin();
    let mut to = rt.stdout();
    replayer::replay(&mut from, &mut to)
}
