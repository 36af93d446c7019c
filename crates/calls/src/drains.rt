// The letter D: drains of a merge, and what it answers between them.
use crate::input::{Input, Malformed};
use crate::merges::{next, refused, table};
use crate::output::Output;
use crate::stop::Stop;
use merge::drain::Outcome;
use merge::parts::MergeScanner;
use merge::refusals::DrainRefusal;
use numbers::handle::ValueHandle;
use std::io;
use std::io::Write;

fn line(out: &mut Output, outcome: Result<Outcome, DrainRefusal>) -> io::Result<()> {
    match outcome {
        Ok(Outcome::Found) => writeln!(out, "found"),
        Ok(Outcome::Past) => writeln!(out, "past"),
        Ok(Outcome::End) => writeln!(out, "end"),
        Err(DrainRefusal::Merge(why)) => refused(out, why),
        Err(why) => writeln!(out, "refused {}", why.number()),
    }
}

// n id, n offset. A drain doesn't look at the size.
fn sought(input: &mut Input) -> Result<ValueHandle, Malformed> {
    Ok(ValueHandle {
        file: input.number()?,
        offset: input.number()?,
        size: 0,
    })
}

// One ask: the state after it.
fn ask(
    input: &mut Input,
    out: &mut Output,
    image: &[u8],
    scanner: MergeScanner,
) -> Result<MergeScanner, Stop> {
    let key = input.bytes()?;
    let handle = sought(input)?;
    let take = input.flag()?;
    let drained = scanner.drain_blobs(image, key, handle);
    line(out, drained.outcome)?;
    if !take {
        return Ok(drained.state);
    }
    let merged = next(out, image, drained.state)?;
    Ok(merged.state)
}

fn positions(out: &mut Output, scanner: MergeScanner) -> io::Result<()> {
    write!(out, "at")?;
    for part in scanner.parts.iter().take(scanner.count) {
        write!(out, " {}", part.at)?;
    }
    writeln!(out)
}

pub fn asked(input: &mut Input, out: &mut Output) -> Result<(), Stop> {
    let image = input.bytes()?;
    let mut scanner = table(input)?;
    let count = input.number()?;
    for _ in 0..count {
        scanner = ask(input, out, image, scanner)?;
    }
    positions(out, scanner)?;
    Ok(())
}
