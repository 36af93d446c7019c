// The letter S: a file scanned from its first byte.
use crate::hashes::Sum;
use crate::input::Input;
use crate::output::{Output, agreed};
use crate::stop::Stop;
use frames::held::held_step;
use frames::place::Place;
use frames::scanner::{ScanEntry, ScanRefusal, Scanner, Step};
use numbers::bytes::part;
use std::io;
use std::io::Write;

// The bytes of a key's place and of a value's, as a line's end.
pub fn both(out: &mut Output, file: &[u8], key: Place, value: Place) -> io::Result<()> {
    out.write_all(b" ")?;
    out.hex(part(file, key.at, key.len))?;
    out.write_all(b" ")?;
    out.hex(part(file, value.at, value.len))?;
    writeln!(out)
}

fn entry(out: &mut Output, file: &[u8], e: ScanEntry) -> io::Result<()> {
    write!(out, "entry")?;
    out.numbers(&[
        e.offset as u64,
        e.seqno,
        e.stated as u64,
        e.value.len as u64,
    ])?;
    both(out, file, e.key, e.value)
}

// A refused scan, with a number that says where.
pub fn refusal(out: &mut Output, why: ScanRefusal, place: usize) -> io::Result<()> {
    write!(out, "refused {} {place}", why.number())?;
    if let ScanRefusal::Mismatch {
        stored,
        computed,
        ..
    } = why
    {
        write!(out, " {} {}", Sum(stored), Sum(computed))?;
    }
    writeln!(out)
}

// The step, and the same by a scanner that holds the file: the scanner to go on with. A refused step began where the refusal says, or where the
// scanner stood.
fn step(out: &mut Output, file: &[u8], from: Scanner) -> io::Result<Option<Scanner>> {
    let answer = from.step(file);
    let next = match answer {
        Step::Entry(e, next) => {
            entry(out, file, e)?;
            Some(next)
        }
        Step::End { at, .. } => {
            writeln!(out, "end {at}")?;
            None
        }
        Step::Refused(why, next) => {
            let (at, next) = match why {
                ScanRefusal::CutShort(_) => (from.at, None),
                ScanRefusal::InvalidHeader { at } | ScanRefusal::Mismatch { at, .. } => (
                    at,
                    Some(next),
                ),
            };
            refusal(out, why, at)?;
            next
        }
    };
    agreed(out, answer == held_step(file, from))?;
    Ok(next)
}

// A scan is over within a quarter as many steps as the file has bytes, and one.
pub fn file(input: &mut Input, out: &mut Output) -> Result<(), Stop> {
    let file = input.bytes()?;
    let mut scanner = Scanner::new();
    for _ in 0..file.len() / 4 + 1 {
        let Some(next) = step(out, file, scanner)? else {
            break;
        };
        scanner = next;
    }
    Ok(())
}
