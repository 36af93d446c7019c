// What 7, cut short, carries: where reading began, the bytes needed, the bytes present. Lines of the calls program do not have them.
use crate::shown::Cut;
use frames::reader::look;
use frames::scanner::{ScanRefusal, Scanned, Scanner};
use frames::writer::Writer;
use garbage::map::FragmentationMap;
use garbage::stored::LoadRefusal;
use merge::parts::{MergeScanner, Part};
use merge::refusals::MergeRefusal;
use numbers::handle::{BlobIndirection, ValueHandle};
use numbers::leb128::{NumberRefusal, read};
use std::io;

fn scan_refusal(rt: &impl Print, why: ScanRefusal) -> io::Result<()> {
    print!(rt; " refused {}", why.number())?;
    match why {
        ScanRefusal::CutShort(c) => print!(rt; " {}", Cut(c)),
        ScanRefusal::InvalidHeader { at } | ScanRefusal::Mismatch { at, .. } => print!(rt; " {at}"),
    }
}

// A scan's step from `at` on.
fn step(rt: &impl Print, file: &[u8], at: usize) -> io::Result<()> {
    match (Scanner { at, ended: false }).step(file) {
        Scanned::Entry(_, _) => println!(rt; " entry"),
        Scanned::End { .. } => println!(rt; " end"),
        Scanned::Refused(why, next) => {
            scan_refusal(rt, why)?;
            println!(rt; ", then at {}", next.at)
        }
    }
}

fn scans(rt: &impl Print, file: &[u8; 46]) -> io::Result<()> {
    println!(rt; "\n7 cut short, a scan of 46 bytes cut in its mark, header, key, value and META")?;
    step(rt, &file[..3], 0)?;
    step(rt, &file[..37], 0)?;
    step(rt, &file[..38], 0)?;
    step(rt, &file[..41], 0)?;
    step(rt, &file[..45], 42)
}

// A scan that stands where no scan comes: past the end.
fn beyond(rt: &impl Print, file: &[u8]) -> io::Result<()> {
    println!(rt; "from 47 and from 2^64 - 1 on:")?;
    step(rt, file, 47)?;
    step(rt, file, usize::MAX)
}

fn point(rt: &impl Print, file: &[u8], offset: u64, size: u32) -> io::Result<()> {
    let handle = ValueHandle {
        offset,
        file: 1,
        size,
    };
    let told = look(file, b"a", handle);
    println!(rt; " refused {} {}", told.number, Cut(told.cut))
}

// The second file's header says a key of 5 bytes.
fn points(rt: &impl Print, file: &[u8], long: &[u8]) -> io::Result<()> {
    println!(rt;
        "a point read: past the file's end, from 2^64 - 1 on, and a key longer than what was taken"
    )?;
    point(rt, file, 42, 0)?;
    point(rt, file, u64::MAX, u32::MAX)?;
    point(rt, long, 0, 3)
}

fn number_refusal(rt: &impl Print, why: NumberRefusal) -> io::Result<()> {
    print!(rt; " refused {}", why.number())?;
    match why {
        NumberRefusal::CutShort(c) => println!(rt; " {}", Cut(c)),
        NumberRefusal::TooLong => println!(rt; " too long"),
    }
}

fn group(rt: &impl Print, s: &[u8], at: usize) -> io::Result<()> {
    match read::<u64>(s, at) {
        Ok(read) => print!(rt; " {}", read.value),
        Err(why) => number_refusal(rt, why),
    }
}

fn groups(rt: &impl Print) -> io::Result<()> {
    println!(rt;
        "a number: no byte, nine that carry on, two from 1 on, from 2^64 - 1 on; a pointer's stated length, from 1 on"
    )?;
    group(rt, b"", 0)?;
    group(rt, b"\xff\xff\xff\xff\xff\xff\xff\xff\xff", 0)?;
    group(rt, b"\x00\x80\x80", 1)?;
    group(rt, b"\x00", usize::MAX)?;
    match BlobIndirection::decode(b"\x00\xac\x02\x02\x80\x01", 1) {
        Ok(_) => print!(rt; " ptr"),
        Err(why) => number_refusal(rt, why),
    }
}

fn load(rt: &impl Print, s: &[u8]) -> io::Result<()> {
    match FragmentationMap::load(s).answer {
        Ok(n) => println!(rt; " {n}"),
        Err(why) => {
            print!(rt; " refused {}", why.number())?;
            match why {
                LoadRefusal::CutShort(c) => println!(rt; " {}", Cut(c)),
                LoadRefusal::MapFull => println!(rt; " full"),
            }
        }
    }
}

fn loads(rt: &impl Print) -> io::Result<()> {
    println!(rt; "a stored map: three bytes, and a count of 2 with 55 bytes behind it")?;
    let mut s = [0u8; 59];
    load(rt, &s[..3])?;
    s[0] = 2;
    load(rt, &s)
}

// A merge of the file's bytes from 2 on, all but its last one; places count from the part's start.
fn merged(rt: &impl Print, file: &[u8], at: usize) -> io::Result<()> {
    println!(rt; "a merge's part from 2 on, cut in META")?;
    // All zeros by hand: an empty part of file 0 is no default of the type's.
    let none = Part {
        start: 0,
        length: 0,
        file: 0,
        at: 0,
    };
    let mut parts = [none; 16];
    parts[0] = Part {
        start: 2,
        length: 45,
        file: 1,
        at,
    };
    match (MergeScanner { count: 1, parts }).next(file).answer {
        Ok(Some(_)) => print!(rt; " entry"),
        Ok(None) => print!(rt; " end"),
        Err(why) => {
            print!(rt; " refused {}", why.number())?;
            match why {
                MergeRefusal::BadPart => print!(rt; " part"),
                MergeRefusal::Scan { part: _, why } => scan_refusal(rt, why),
            }
        }
    }?;
    println!(rt)
}

// One frame, 42 bytes, and META, written from `at` on.
fn example(buf: &mut [u8], at: usize) {
    let mut w = Writer::new(1).use_target_size(0);
    w.offset = at;
    let _ = w.append(buf, b"a", 7, b"xyz");
}

pub fn edges(rt: &impl Print) -> io::Result<()> {
    let mut file = [0u8; 46];
    example(&mut file, 0);
    scans(rt, &file)?;
    beyond(rt, &file)?;
    let mut long = file;
    long[28] = 5;
    points(rt, &file, &long)?;
    groups(rt)?;
    loads(rt)?;
    let mut later = [0u8; 48];
    example(&mut later, 2);
    merged(rt, &later, 42)
}
