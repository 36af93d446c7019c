// The letters H and h: the hash of two strings joined, and of one.
use crate::input::Input;
use crate::output::Output;
use crate::stop::Stop;
use hash::{Hash128, xxh3_128, xxh3_128_joined};
use std::fmt;
use std::io::Write;

// A sum's two halves, the low one first, as this program's lines have them (docs/CALLS.md).
#[derive(Clone, Copy)]
pub struct Sum(pub Hash128);

impl fmt::Display for Sum {
    fn fmt<W: fmt::Write>(&self, f: &mut fmt::Formatter<W>) -> fmt::Result {
        write!(f, "{} {}", self.0.low, self.0.high)
    }
}

pub fn joined(input: &mut Input, out: &mut Output) -> Result<(), Stop> {
    let key = input.bytes()?;
    let value = input.bytes()?;
    writeln!(out, "hash {}", Sum(xxh3_128_joined(key, value)))?;
    Ok(())
}

pub fn one(input: &mut Input, out: &mut Output) -> Result<(), Stop> {
    let bytes = input.bytes()?;
    writeln!(out, "hash {}", Sum(xxh3_128(bytes)))?;
    Ok(())
}
