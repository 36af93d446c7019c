// The letter P: a point read.
use crate::hashes::Sum;
use crate::input::Input;
use crate::output::{Output, agreed};
use crate::pointers::handle;
use crate::stop::Stop;
use frames::place::Place;
use frames::reader::{Told, look, read, value};
use hash::Hash128;
use numbers::cut::CutShort;
use numbers::handle::ValueHandle;
use std::io;
use std::io::Write;

fn line(out: &mut Output, file: &[u8], told: Told) -> io::Result<()> {
    match told.number {
        0 => {
            write!(out, "value ")?;
            out.hex(value(file, told))?;
            writeln!(out)
        }
        9 => writeln!(out, "refused 9 {} {}", Sum(told.stored), Sum(told.computed)),
        number => writeln!(out, "refused {number}"),
    }
}

// A place of an answer that no read gives.
fn unread() -> Told {
    let sum = Hash128 { low: 1, high: 1 };
    Told {
        number: 1,
        value: Place { at: 1, len: 1 },
        stored: sum,
        computed: sum,
        cut: CutShort {
            at: 1,
            needed: 1,
            present: 1,
        },
    }
}

// Whether the second form, whose answer goes to a lent place, gives what was looked up.
fn agrees(file: &[u8], key: &[u8], handle: ValueHandle, looked: Told) -> bool {
    let mut told = unread();
    let bytes = read(file, key, handle, &mut told);
    told == looked && bytes == value(file, looked)
}

pub fn pointed(input: &mut Input, out: &mut Output) -> Result<(), Stop> {
    let file = input.bytes()?;
    let key = input.bytes()?;
    let handle = handle(input)?;
    let told = look(file, key, handle);
    line(out, file, told)?;
    agreed(out, agrees(file, key, handle, told))?;
    Ok(())
}
