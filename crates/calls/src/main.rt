// Makes the calls that records on standard input ask for, and writes a line for each answer.
#![tactic(auto)]

mod batch;
mod counts;
mod drains;
mod files;
mod floats;
mod groups;
mod hashes;
mod input;
mod judges;
mod maps;
mod merges;
mod output;
mod pointers;
mod points;
mod record;
mod rows;
mod scans;
mod stop;
mod stores;

use output::Output;
use std::io;
use std::io::Write;
use stop::Stop;

fn main(rt: HostRuntime) -> io::Result<()> {
    let mut bytes = [0; 65536];
    let mut out = Output::new(rt.stdout());
    match batch::all(&mut rt.stdin(), &mut bytes, &mut out) {
        Ok(()) => {}
        Err(Stop::Malformed) => writeln!(out, "bad")?,
        Err(Stop::Write(why)) => return Err(why),
    }
    out.end()
}
