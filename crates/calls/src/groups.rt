// The letters V and v: a number written and read in groups of seven bits.
use crate::input::Input;
use crate::output::{Output, used, whole};
use crate::stop::Stop;
use numbers::leb128;
use numbers::leb128::{Decoded, NumberRefusal, WriteRefusal};
use std::io::Write;
use std::{fmt, io};

pub fn written(input: &mut Input, out: &mut Output) -> Result<(), Stop> {
    let width = input.number()?;
    let x = input.number()?;
    let n = input.bounded(16)?;
    let mut bytes = [0xEE; 16];
    let room = &mut bytes[..n];
    let answer = match (width, u32::try_from(x)) {
        (32, Ok(short)) => leb128::write(room, 0, short),
        (64, _) => leb128::write(room, 0, x),
        _ => return Err(Stop::Malformed),
    };
    used(out, answer.map_err(WriteRefusal::number))?;
    whole(out, room)?;
    Ok(())
}

fn found<T: Copy + fmt::Display>(
    out: &mut Output,
    answer: Result<Decoded<T>, NumberRefusal>,
) -> io::Result<()> {
    match answer {
        Ok(decoded) => writeln!(out, "num {} {}", decoded.value, decoded.used),
        Err(why) => writeln!(out, "refused {}", why.number()),
    }
}

pub fn read(input: &mut Input, out: &mut Output) -> Result<(), Stop> {
    let width = input.number()?;
    let bytes = input.bytes()?;
    match width {
        32 => found(out, leb128::read::<u32>(bytes, 0))?,
        64 => found(out, leb128::read::<u64>(bytes, 0))?,
        _ => return Err(Stop::Malformed),
    }
    Ok(())
}
