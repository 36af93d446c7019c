// The listing program: the frames in the first 65,536 bytes of standard input.
#![tactic(auto)]

mod input;
mod list;

use input::filled;
use list::list;
use std::io;

fn main(rt: HostRuntime) -> io::Result<()> {
    let mut bytes = [0; 65536];
    let Ok(n) = filled(&mut rt.stdin(), &mut bytes) else {
        return eprintln!(rt; "cannot read");
    };
    list(&rt, &bytes[..n])
}
