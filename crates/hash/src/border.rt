// Key and value as one text: the words that cross from key to value are made of both ends.
ghost use Rattle.std.specs.Prelude.{◌≡◌, ◌+◌, ◌-◌, ◌<◌, ◌≤◌, ◌++◌, length, drop};
ghost use Rattle.numbers.specs.Le.{num, Octets};
ghost use Rattle.hash.specs.Shape.{end_of, joint_of};

use super::text::{Text, Two, chunk};
use super::words::{read32, read64};
use numbers::get;

// Key and value; the key's last eight bytes at the top of a word, and the value's first eight.
#[derive(Clone, Copy)]
pub(crate) struct Joined<'a> {
    pub(crate) key: &'a [u8],
    pub(crate) value: &'a [u8],
    end: u64,
    head: u64,
    ghost key_octets: { Octets key.now },
    ghost value_octets: { Octets value.now },
    ghost ends: { end ≡ end_of key.now },
    ghost begins: { head ≡ num 8 value.now },
}

// Fewer than eight bytes: two reads of four, or byte by byte.
fn few(s: &[u8]) -> u64
    requires { length s.now < 8 }
    ensures { result ≡ num 8 s.now }
{
    let n = s.len();
    if 4 <= n {
        return (read32(s, 0) as u64)
            | (((read32(s, n - 4) as u64) >> (8 * ((8 - n) as u32))) << 32);
    }
    get::<u32>(&s[..n], 0) as u64
}

// The first eight bytes, or as many as there are.
fn head(s: &[u8]) -> u64
    ensures { result ≡ num 8 s.now }
{
    let n = s.len();
    if 8 <= n {
        return read64(s, 0);
    }
    few(&s[..n])
}

// The last eight bytes, or as many as there are, at the top.
fn end(s: &[u8]) -> u64
    ensures { result ≡ end_of s.now }
{
    let n = s.len();
    if 8 <= n {
        return read64(s, n - 8);
    }
    (few(&s[..n]) << (56 - 8 * (n as u32))) << 8
}

// Clauses spell the text out: `Joined.bytes` is no name in a clause, and `⟦<Joined as Text>⟧.bytes` does not say that it is key and value.
impl<'a> Joined<'a> {
    pub(crate) fn new(key: &'a [u8], value: &'a [u8]) -> Self
        ensures { (result.key.now ≡ key.now) × (result.value.now ≡ value.now) }
    {
        Joined {
            key,
            value,
            end: end(key),
            head: head(value),
        }
    }

    // The word of which the first d bytes stand in key.
    fn joint(&self, d: usize) -> u64
        requires { (0 < d) × (d < 8) }
        ensures { result ≡ joint_of self.now.end self.now.head d }
    {
        (self.end >> (64 - 8 * (d as u32))) | (self.head << (8 * (d as u32)))
    }

    // The word from i on.
    fn word(&self, i: usize) -> u64
        requires { i + 8 ≤ length self.now.key.now + length self.now.value.now }
        ensures { result ≡ num 8 (drop i (self.now.key.now ++ self.now.value.now)) }
    {
        let m = self.key.len();
        if m <= i {
            return read64(self.value, i - m);
        }
        if i + 8 <= m {
            return read64(self.key, i);
        }
        self.joint(m - i)
    }

    // The word j bytes before the end.
    fn word_back(&self, j: usize) -> u64
        requires { (8 ≤ j) × (j ≤ length self.now.key.now + length self.now.value.now) }
        ensures { result ≡ num 8 (drop (length self.now.key.now + length self.now.value.now - j) (self.now.key.now ++ self.now.value.now)) }
    {
        let n = self.value.len();
        if j <= n {
            return read64(self.value, n - j);
        }
        if n + 8 <= j {
            return read64(self.key, self.key.len() - (j - n));
        }
        self.joint(j - n)
    }
}

impl<'a> Text for Joined<'a> {
    ghost bytes = { λ s. s.key.now ++ s.value.now };

    fn len(&self) -> usize {
        self.key.len() + self.value.len()
    }

    fn front(&self, i: usize) -> Two {
        let m = self.key.len();
        if i + 16 <= m {
            return chunk(self.key, i);
        }
        if m <= i {
            return chunk(self.value, i - m);
        }
        Two {
            x: self.word(i),
            y: self.word(i + 8),
        }
    }

    fn back(&self, j: usize) -> Two {
        let n = self.value.len();
        if j <= n {
            return chunk(self.value, n - j);
        }
        Two {
            x: self.word_back(j),
            y: self.word_back(j - 8),
        }
    }
}
