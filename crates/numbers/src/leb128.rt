// Unsigned LEB128 (DWARF 5, section 7.6): written shortest, read with padding.
ghost use Rattle.std.specs.Prelude.{◌≡◌, ◌*◌};
ghost use Rattle.numbers.specs.Refusals.{write_number, wrote_number, read_number};
ghost use Rattle.numbers.specs.Wrote.{wrote_of, placed};
ghost use Rattle.numbers.specs.Leb128.{shortest, read_of, read_as};

use crate::bytes::{room, tail};
use crate::cut::CutShort;
use crate::number::Number;
use crate::spell::{size, spell};

#[derive(Clone, Copy, Debug, PartialEq, Eq)]
pub enum WriteRefusal {
    NoRoom,
}

#[derive(Clone, Copy, Debug, PartialEq, Eq)]
pub enum NumberRefusal {
    CutShort(CutShort),
    TooLong,
}

impl WriteRefusal {
    // Document 01's number.
    pub fn number(self) -> u64
        ensures { result ≡ write_number self }
    {
        match self {
            WriteRefusal::NoRoom => 3,
        }
    }
}

// The same; 0 where the bytes were written.
pub fn wrote_number(answer: Result<usize, WriteRefusal>) -> u64
    ensures { result ≡ wrote_number answer }
{
    match answer {
        Ok(_) => 0,
        Err(why) => why.number(),
    }
}

impl NumberRefusal {
    // Document 01's number.
    pub fn number(self) -> u64
        ensures { result ≡ read_number self }
    {
        match self {
            NumberRefusal::CutShort(_) => 7,
            NumberRefusal::TooLong => 10,
        }
    }
}

// What was read, and how many bytes of it.
#[derive(Clone, Copy, Debug, PartialEq, Eq)]
pub struct Decoded<T> {
    pub value: T,
    pub used: usize,
}

// How many bytes were used.
pub fn write<T: Number>(buf: &mut [u8], at: usize, x: T) -> Result<usize, WriteRefusal>
    ensures answer { result ≡ wrote_of (shortest (T.value x)) at buf.old }
    ensures bytes { buf.new ≡ placed (shortest (T.value x)) at buf.old }
{
    let n = size(x);
    if room(buf.len(), at) < n {
        return Err(WriteRefusal::NoRoom);
    }
    spell(buf, at, x);
    Ok(n)
}

// The last group that T has may hold what is left of its largest number, and no more.
pub fn read<T: Number>(s: &[u8], at: usize) -> Result<Decoded<T>, NumberRefusal>
    ensures { result ≡ read_as T.of (read_of (8 * T.width) at s.now) }
{
    let t = tail(s, at);
    let mut value: u64 = 0;
    let mut weight: u64 = 1;
    let mut left = T::MAX;
    for (i, &byte) in t.iter().enumerate() {
        let b = u64::from(byte);
        if left < 128 && left < b {
            return Err(NumberRefusal::TooLong);
        }
        if b < 128 {
            return Ok(Decoded {
                value: T::narrow(value + weight * b),
                used: i + 1,
            });
        }
        value += weight * (b - 128);
        weight *= 128;
        left /= 128;
    }
    Err(NumberRefusal::CutShort(CutShort {
        at,
        needed: t.len() + 1,
        present: t.len(),
    }))
}
