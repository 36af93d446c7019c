// "a file of values 3 and 0 long is dead after dropping the 3": the file is written, and judged by the report and the pointers that its writer gave.
use crate::shown::Pointer;
use frames::writer::{Report, Writer};
use garbage::batch::drop_listed;
use garbage::map::FragmentationMap;
use garbage::verdict::{DeadVerdict, StaleVerdict, is_dead, is_stale};
use numbers::bytes::part;
use numbers::handle::BlobIndirection;
use std::io;

const FILE: u64 = 7;

// The map after a drop of the pointer, as the bytes that it is spelled in.
fn dropped(
    rt: &impl Print,
    m: FragmentationMap,
    p: BlobIndirection,
) -> io::Result<FragmentationMap> {
    let mut bytes = [0u8; 32];
    let n = match p.encode(&mut bytes, 0) {
        Ok(n) => n,
        Err(why) => {
            print!(rt; " refused {}", why.number())?;
            return Ok(m);
        }
    };
    let d = m.drop_record(true, part(&bytes, 0, n));
    match d.answer {
        Ok(()) => print!(rt; " dropped"),
        Err(why) => print!(rt; " refused {}", why.number()),
    }?;
    Ok(d.map)
}

// Dead, and stale at 1.0.
fn judged(rt: &impl Print, m: FragmentationMap, r: Report) -> io::Result<()> {
    let dead = is_dead(m, FILE, r);
    match dead {
        DeadVerdict::Dead => print!(rt; " dead"),
        DeadVerdict::Wanted => print!(rt; " wanted"),
        DeadVerdict::NoEntry => print!(rt; " no entry"),
        DeadVerdict::Refused => print!(rt; " refused {}", dead.number()),
    }?;
    let stale = is_stale(m, FILE, r, 1.0);
    match stale {
        StaleVerdict::Stale(_) => println!(rt; " stale"),
        StaleVerdict::Kept(_) => println!(rt; " kept"),
        StaleVerdict::NoEntry => println!(rt; " no entry"),
        StaleVerdict::Refused => println!(rt; " refused {}", stale.number()),
    }
}

// A line where the two pointers, dropped as a list, give another map than one by one. The list's others are not looked at.
fn listed(
    rt: &impl Print,
    empty: BlobIndirection,
    long: BlobIndirection,
    m: FragmentationMap,
) -> io::Result<()> {
    let mut list = [long; 1024];
    list[0] = empty;
    if drop_listed(FragmentationMap::new(), list, 2).map == m {
        return Ok(());
    }
    println!(rt; " listed: another map")
}

// Both drops, in both orders.
fn drops(
    rt: &impl Print,
    long: BlobIndirection,
    empty: BlobIndirection,
    r: Report,
) -> io::Result<()> {
    let none = FragmentationMap::new();
    print!(rt; "nothing dropped:")?;
    judged(rt, none, r)?;
    print!(rt; "the 3:")?;
    let first = dropped(rt, none, long)?;
    judged(rt, first, r)?;
    print!(rt; "the 0:")?;
    let second = dropped(rt, none, empty)?;
    judged(rt, second, r)?;
    print!(rt; "the 0, then the 3:")?;
    let both = dropped(rt, second, long)?;
    judged(rt, both, r)?;
    listed(rt, empty, long, both)
}

pub fn edges(rt: &impl Print) -> io::Result<()> {
    println!(rt; "\na file of values 3 and 0 long is dead after dropping the 3")?;
    let mut buf = [0u8; 85];
    let Ok(long) = Writer::new(FILE).append(&mut buf, b"a", 7, b"xyz") else {
        return Ok(());
    };
    let Ok(empty) = long.writer.append(&mut buf, b"b", 9, b"") else {
        return Ok(());
    };
    println!(rt;
        "pointers: {}, {}",
        Pointer(long.pointer),
        Pointer(empty.pointer)
    )?;
    match empty.writer.finish(&mut buf) {
        Ok(closed) => {
            let r = closed.report;
            println!(rt; "report: {} {} {}", r.items, r.disk, r.stated)?;
            drops(rt, long.pointer, empty.pointer, r)
        }
        Err(refused) => print!(rt; " refused {}", refused.why.number()),
    }
}
