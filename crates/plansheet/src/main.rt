// Reads frames from standard input, one a line, and writes what they print to standard output, each line's answer before it waits for the next.
#![tactic(auto)]

use service::serve::serve;
use std::io;
use table::table::Table;

fn main(rt: HostRuntime) -> io::Result<()> {
    serve(&mut rt.stdin(), &mut rt.stdout(), Table::new(rt.alloc())?)
}
