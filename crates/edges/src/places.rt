// Numbers and pointers written and read at a place: the calls program writes from a room's first byte on. And a scanner that says it has ended.
use crate::shown::{Pointer, all, same};
use frames::scanner::{Scanned, Scanner};
use numbers::bytes::part;
use numbers::handle::{BlobIndirection, ValueHandle};
use numbers::leb128::{WriteRefusal, write};
use std::io;

// What was written, and whether every other byte of the buffer is 238 as before.
fn wrote(
    rt: &impl Print,
    answer: Result<usize, WriteRefusal>,
    buf: &[u8],
    at: usize,
) -> io::Result<()> {
    match answer {
        Ok(n) => println!(rt; " used {n} {}", same(all(part(buf, 0, at), 238))),
        Err(why) => println!(rt; " refused {} {}", why.number(), same(all(buf, 238))),
    }
}

fn numbers_at(rt: &impl Print) -> io::Result<()> {
    println!(rt;
        "\n3 no room, from a place on: 128 where one byte is left, 0 where none is and from 2^64 - 1 on; then 127 where one is left"
    )?;
    let mut room = [238u8; 8];
    for (at, x) in [(7, 128u64), (8, 0), (usize::MAX, 0), (7, 127)] {
        wrote(rt, write(&mut room, at, x), &room, at)?;
    }
    Ok(())
}

fn pointers_at(rt: &impl Print) -> io::Result<()> {
    println!(rt;
        "a pointer of six bytes where five are left, then where six are, and read from there"
    )?;
    let handle = ValueHandle {
        offset: 300,
        file: 2,
        size: 128,
    };
    let p = BlobIndirection {
        handle,
        stated: 127,
    };
    let mut room = [238u8; 8];
    for at in [3, 2] {
        wrote(rt, p.encode(&mut room, at), &room, at)?;
    }
    match BlobIndirection::decode(&room, 2) {
        Ok(read) => println!(rt; " {} {}", Pointer(read.value), read.used),
        Err(why) => println!(rt; " refused {}", why.number()),
    }
}

// "an ended scanner answers end again", wherever it says it stands.
fn ended(rt: &impl Print) -> io::Result<()> {
    println!(rt; "a scanner that has ended, at 0 and at 2^64 - 1")?;
    for at in [0, usize::MAX] {
        match (Scanner { at, ended: true }).step(b"BLOB") {
            Scanned::Entry(_, _) => println!(rt; " entry"),
            Scanned::End { at, .. } => println!(rt; " end {at}"),
            Scanned::Refused(why, _) => println!(rt; " refused {}", why.number()),
        }?;
    }
    Ok(())
}

pub fn edges(rt: &impl Print) -> io::Result<()> {
    numbers_at(rt)?;
    pointers_at(rt)?;
    ended(rt)
}
