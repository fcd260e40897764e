// The bench: reads a script from standard input and prints what it comes to.
#![tactic(auto)]

use script::printed;
use std::io;
use std::io::Read;

fn main(rt: HostRuntime) -> io::Result<()> {
    let mut script = Vec::new(rt.alloc());
    rt.stdin().read_to_end(&mut script)?;
    rt.print(printed(rt.alloc(), &script)?)
}
