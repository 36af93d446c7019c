// The list: a line for each frame, and one for the end or the refusal that ends it.
use frames::scanner::{Scanned, Scanner};
use std::io;

// A frame's line: offset, key length, seqno, stated and on-disk length. A scan of n bytes is over within n/4 + 1 steps: a bound, and no index.
pub fn list(rt: &impl Print, file: &[u8]) -> io::Result<()> {
    let mut scanner = Scanner::new();
    for _ in 0..=file.len() / 4 {
        match scanner.step(file) {
            Scanned::Entry(e, next) => {
                println!(rt;
                    "{} {} {} {} {}",
                    e.offset, e.key.len, e.seqno, e.stated, e.value.len
                )?;
                scanner = next;
            }
            Scanned::End { at, .. } => return println!(rt; "end {at}"),
            Scanned::Refused(why, _) => {
                return println!(rt; "refused {} {}", why.number(), scanner.at);
            }
        }
    }
    Ok(())
}
