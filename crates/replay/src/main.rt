// The bench once more, with the long scripts: a program has one stored input.
#![tactic(auto)]

use script::printed;
use std::io;
use std::io::Read;

fn main(rt: HostRuntime) -> io::Result<()> {
    let mut script = Vec::new(rt.alloc());
    rt.stdin().read_to_end(&mut script)?;
    rt.print(printed(rt.alloc(), &script)?)
}
