// Standard input, read until it ends or the buffer is full.
ghost use Rattle.std.specs.Prelude.{◌≤◌, length, IfOk};

use std::io;

// How many bytes were read, from the buffer's first on. std's `read_to_end` needs a heap, and `read_exact` does not tell how much came. A failed read
// is an error here, and no end of the input.
pub fn filled(from: &mut impl io::Read, bytes: &mut [u8]) -> io::Result<usize>
    ensures { IfOk result (λ n. n ≤ length bytes.old) }
{
    let mut at = 0;
    while at < bytes.len() {
        let n = from.read(&mut bytes[at..])?;
        if n == 0 {
            break;
        }
        at += n;
    }
    Ok(at)
}
