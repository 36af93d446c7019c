// The batches of standard input: each a length of 8 bytes and that many bytes of records.
use crate::input::Malformed;
use crate::output::Output;
use crate::record;
use crate::stop::Stop;
use numbers::bytes::part;
use std::io::Read;

// How many bytes came to the start of the buffer, until it is full, the input ends or a read fails. std's `read_exact` does not tell an input's end
// from a batch that is cut, and `read_to_end` needs a heap.
fn read_full(from: &mut impl Read, bytes: &mut [u8]) -> usize {
    let mut done = 0;
    while done < bytes.len() {
        let Ok(n) = from.read(&mut bytes[done..]) else {
            break;
        };
        if n == 0 {
            break;
        }
        done += n;
    }
    done
}

// The next batch's length; none at the input's end.
fn length(from: &mut impl Read) -> Result<Option<usize>, Malformed> {
    let mut bytes = [0; 8];
    match read_full(from, &mut bytes) {
        0 => Ok(None),
        8 => Ok(Some(u64::from_le_bytes(bytes) as usize)),
        _ => Err(Malformed),
    }
}

// The next n bytes, read to the start of the buffer.
fn fill(from: &mut impl Read, bytes: &mut [u8], n: usize) -> Result<(), Malformed> {
    let batch = bytes.get_mut(..n).ok_or(Malformed)?;
    if read_full(from, batch) == n {
        Ok(())
    } else {
        Err(Malformed)
    }
}

// Each batch to the end of the input, or to the first that is malformed; a million at most.
pub fn all(from: &mut impl Read, bytes: &mut [u8], out: &mut Output) -> Result<(), Stop> {
    for _ in 0..1_000_000 {
        let Some(n) = length(from)? else { break };
        fill(from, bytes, n)?;
        record::all(part(bytes, 0, n), out)?;
    }
    Ok(())
}
