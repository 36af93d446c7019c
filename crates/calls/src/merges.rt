// The letter M: a merge of parts of one image.
use crate::input::{Input, Malformed};
use crate::output::{Output, agreed};
use crate::rows::agree;
use crate::scans::{both, refusal};
use crate::stop::Stop;
use merge::heads::MergeEntry;
use merge::next::Merged;
use merge::parts::{MergeScanner, Part};
use merge::refusals::MergeRefusal;
use std::io;
use std::io::Write;

fn part(input: &mut Input) -> Result<Part, Malformed> {
    Ok(Part {
        start: input.number()? as usize,
        length: input.number()? as usize,
        file: input.number()?,
        at: input.number()? as usize,
    })
}

// The state that is told: a count, of any size, and then as many parts. Those past the sixteenth are read over.
pub fn table(input: &mut Input) -> Result<MergeScanner, Malformed> {
    let count = input.number()? as usize;
    // All zeros by hand: an empty part of file 0 is no default of the type's.
    let none = Part {
        start: 0,
        length: 0,
        file: 0,
        at: 0,
    };
    let mut parts = [none; 16];
    for i in 0..count {
        let told = part(input)?;
        if let Some(place) = parts.get_mut(i) {
            *place = told;
        }
    }
    Ok(MergeScanner { count, parts })
}

fn entry(out: &mut Output, image: &[u8], e: MergeEntry) -> io::Result<()> {
    write!(out, "entry")?;
    out.numbers(&[
        e.part as u64,
        e.file,
        e.offset as u64,
        e.seqno,
        e.stated as u64,
    ])?;
    both(out, image, e.key, e.value)
}

pub fn refused(out: &mut Output, why: MergeRefusal) -> io::Result<()> {
    match why {
        MergeRefusal::BadPart => writeln!(out, "refused {}", why.number()),
        MergeRefusal::Scan { part, why } => refusal(out, why, part),
    }
}

// The next answer, and its line.
pub fn next(out: &mut Output, image: &[u8], scanner: MergeScanner) -> io::Result<Merged> {
    let merged = scanner.next(image);
    match merged.answer {
        Ok(Some(e)) => entry(out, image, e)?,
        Ok(None) => writeln!(out, "end")?,
        Err(why) => refused(out, why)?,
    }
    Ok(merged)
}

// Answers until one is no entry, and one more after a refusal. Sixteen parts of a batch's bytes give fewer than a million.
fn lines(out: &mut Output, image: &[u8], start: MergeScanner) -> io::Result<()> {
    let mut scanner = start;
    for _ in 0..1_000_000 {
        let merged = next(out, image, scanner)?;
        scanner = merged.state;
        match merged.answer {
            Ok(Some(_)) => {}
            Ok(None) => break,
            Err(_) => {
                next(out, image, scanner)?;
                break;
            }
        }
    }
    Ok(())
}

pub fn merged(input: &mut Input, out: &mut Output) -> Result<(), Stop> {
    let image = input.bytes()?;
    let scanner = table(input)?;
    lines(out, image, scanner)?;
    agreed(out, agree(image, scanner))?;
    Ok(())
}
