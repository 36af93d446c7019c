// Document 01's edges that no record of the calls program can hold, run: a heading for each paragraph, a line for each case.
#![tactic(auto)]

mod cuts;
mod dead;
mod keys;
mod places;
mod shown;

use std::io;

fn main(rt: HostRuntime) -> io::Result<()> {
    keys::edges(&rt)?;
    dead::edges(&rt)?;
    cuts::edges(&rt)?;
    places::edges(&rt)
}
