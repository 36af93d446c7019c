// Keys at their longest: "key of 65,535 taken, 65,536 refused". A record lies in a batch of 65,536 bytes, so none holds them.
use crate::shown::{Pointer, all, same};
use frames::writer::Writer;
use std::io;

// A new writer's append, and whether a refusal left writer and buffer as they were.
fn append(rt: &impl Print, buf: &mut [u8], key: &[u8]) -> io::Result<()> {
    let new = Writer::new(1);
    match new.append(buf, key, 0, b"") {
        Ok(a) => {
            let put = if a.report.is_some() { "last" } else { "put" };
            println!(rt; " {put} {}", Pointer(a.pointer))
        }
        Err(refused) => {
            let number = refused.why.number();
            println!(rt;
                " refused {number} {} {}",
                same(refused.writer == new),
                same(all(buf, 0xee))
            )
        }
    }
}

pub fn edges(rt: &impl Print) -> io::Result<()> {
    let key = [7; 65536];
    let longest = &key[..65535];
    let mut room = [0xee; 65577];
    println!(rt; "1 bad key: 0 or more than 65,535 bytes; before 3")?;
    print!(rt; "65,536, room for more:")?;
    append(rt, &mut room, &key)?;
    print!(rt; "65,536, no room:")?;
    append(rt, &mut [0xee; 8], &key)?;
    print!(rt; "65,535, one byte too few:")?;
    append(rt, &mut [0xee; 65576], longest)?;
    print!(rt; "65,535:")?;
    append(rt, &mut room, longest)
}
