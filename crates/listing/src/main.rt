// Lists the reel image on standard input: a line for each object and the recorded end, or L, S or X k F.
#![tactic(auto)]

use std::io;

fn main(rt: HostRuntime) -> io::Result<()> {
    lister::list_file(&mut rt.stdin(), &mut rt.stdout())
}
