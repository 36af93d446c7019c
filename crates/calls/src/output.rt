// Answer lines. Bytes wait in a buffer, which is written when it is full. std's `BufWriter` has its buffer on the heap, and its `Cursor` takes twice the
// time for lines of short numbers.
use numbers::bytes::{copy, lesser, part, room};
use numbers::put;
use std::io;
use std::io::{Stdout, Write};

// Standard output, the bytes that wait for it, and the first failure to write: after it nothing is written, and the input is read on to its end.
#[derive(Drop)]
pub struct Output {
    to: Stdout,
    waiting: [u8; 65536],
    held: usize,
    written: io::Result<()>,
}

// The two digits of a byte, the higher one first, as a number of two bytes.
fn digits(byte: u8) -> u16 {
    let digit = b"0123456789abcdef";
    let high = digit[(byte / 16) as usize];
    let low = digit[(byte % 16) as usize];
    u16::from_le_bytes([high, low])
}

impl Output {
    pub fn new(to: Stdout) -> Output {
        Output {
            to,
            waiting: [0; 65536],
            held: 0,
            written: Ok(()),
        }
    }

    // What waits is written.
    fn empty(&mut self) {
        if self.written.is_ok() {
            self.written = self.to.write_all(part(&self.waiting, 0, self.held));
        }
        self.held = 0;
    }

    // What waits is written, and the first failure is told.
    pub fn end(mut self) -> io::Result<()> {
        self.empty();
        self.written
    }

    // Numbers in decimal, a space before each. No `Display`: a format's pieces take more than twice as long.
    pub fn numbers(&mut self, numbers: &[u64]) -> io::Result<()> {
        for number in numbers {
            let mut text = [b' '; 21];
            let mut left = *number;
            let mut from = 21usize;
            for i in 0..20usize {
                from = 20 - i;
                text[from] = b'0' + (left % 10) as u8;
                left /= 10;
                if left == 0 {
                    break;
                }
            }
            let start = from.saturating_sub(1);
            self.write_all(part(&text, start, 21))?;
        }
        Ok(())
    }

    // Bytes in hexadecimal, `-` for none. No `Display`: a format's piece for each byte takes ten times as long.
    pub fn hex(&mut self, bytes: &[u8]) -> io::Result<()> {
        if bytes.is_empty() {
            return self.write_all(b"-");
        }
        for piece in bytes.chunks(256) {
            let mut text = [0u8; 512];
            let mut at = 0usize;
            for byte in piece {
                put(&mut text, at, digits(*byte));
                at = at.wrapping_add(2);
            }
            self.write_all(part(&text, 0, at))?;
        }
        Ok(())
    }
}

impl Write for Output {
    fn write(&mut self, bytes: &[u8]) -> io::Result<usize> {
        if room(65536, self.held) == 0 {
            self.empty();
        }
        let n = lesser(bytes.len(), room(65536, self.held));
        copy(&mut self.waiting, self.held, part(bytes, 0, n));
        self.held = self.held.wrapping_add(n);
        Ok(n)
    }

    fn flush(&mut self) -> io::Result<()> {
        self.empty();
        Ok(())
    }
}

// A room's bytes, as a line.
pub fn whole(out: &mut Output, bytes: &[u8]) -> io::Result<()> {
    write!(out, "bytes ")?;
    out.hex(bytes)?;
    writeln!(out)
}

// Done, or the number of the refusal. Each caller gives the number: a trait over the refusals would stand in the library for these lines alone.
pub fn done(out: &mut Output, answer: Result<(), u64>) -> io::Result<()> {
    match answer {
        Ok(()) => writeln!(out, "ok"),
        Err(number) => writeln!(out, "refused {number}"),
    }
}

// How many bytes were used, or the number of the refusal.
pub fn used(out: &mut Output, answer: Result<usize, u64>) -> io::Result<()> {
    match answer {
        Ok(used) => writeln!(out, "used {used}"),
        Err(number) => writeln!(out, "refused {number}"),
    }
}

// Whether both forms of a call gave the same.
pub fn agreed(out: &mut Output, same: bool) -> io::Result<()> {
    if same {
        Ok(())
    } else {
        writeln!(out, "differs")
    }
}
