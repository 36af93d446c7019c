// The unsigned numbers that stand in bytes, least first, each in so many as it has.
ghost use Rattle.std.specs.Prelude.{◌≡◌, ℕ, ◌+◌, ◌*◌, ◌^◌, ◌≤◌, drop, get_or, length};
ghost use Rattle.std.proofs.lemmas.List.Edits.{sets};
ghost use Rattle.numbers.specs.Le.{le, num, padded};
ghost use Rattle.numbers.specs.Width.{Holds, holds16, holds32, holds64};

use crate::bytes::{copy, tail};
use std::array;

pub trait Number: Copy + Into<u64> {
    // How many bytes it has.
    ghost width: { ℕ };

    ghost of: { ℕ → Self };

    ghost value: { Self → ℕ };

    ghost MAX: { ℕ };

    const MAX: u64;

    // The number at the front of the bytes; what is missing counts 0.
    fn from_front(s: &[u8]) -> Self
        ensures { result ≡ of (num width s.now) };

    // Its bytes from `at` on, as far as there is room.
    fn put_into(self, buf: &mut [u8], at: usize)
        ensures { buf.new ≡ sets buf.old at (le width (value self)) };

    fn narrow(x: u64) -> Self
        requires { x ≤ MAX }
        ensures { result ≡ of x };

    ghost holds: { Holds width MAX };

    ghost widens: { (x : Self) (n : ℕ) → Self.converts x n → n ≡ value x };
}

// The byte at place i, 0 where it is missing.
fn byte(s: &[u8], i: usize) -> u8
    ensures { result ≡ get_or s.now i 0 }
{
    if i < s.len() { s[i] } else { 0 }
}

// The first N bytes, those that are missing as 0: a single load where none is. Else byte by byte: a copy of so few, and the load of what it stored,
// take 7 ns more.
fn front<const N: usize>(s: &[u8]) -> [u8; N]
    ensures { result ≡ padded N s.now }
{
    match s.first_chunk() {
        Some(bytes) => *bytes,
        None => array::from_fn(|i| byte(s, i)),
    }
}

// The bytes from `at` on, as far as there is room: a single store where there is room for all.
fn lay<const N: usize>(buf: &mut [u8], at: usize, bytes: &[u8; N])
    ensures { buf.new ≡ sets buf.old at bytes.now }
{
    if at <= buf.len() && N <= buf.len() - at {
        buf[at..at + N].copy_from_slice(bytes);
    } else {
        copy(buf, at, bytes);
    }
}

// Alike but for the type: the gate takes no impl that a macro of the repository writes.
impl Number for u16 {
    ghost width = { 2 };

    ghost of = { λ n. n };

    ghost value = { λ x. x };

    ghost MAX = { 0xffff };

    const MAX: u64 = 0xffff;

    #[tactic(auto, using(crate::specs::BytesLaws::reads_two))]
    fn from_front(s: &[u8]) -> u16 {
        u16::from_le_bytes(front(s))
    }

    fn put_into(self, buf: &mut [u8], at: usize) {
        lay(buf, at, &u16::to_le_bytes(self));
    }

    fn narrow(x: u64) -> u16 {
        x as u16
    }

    ghost holds = { holds16 };

    ghost widens = { λ x n e. e };
}

impl Number for u32 {
    ghost width = { 4 };

    ghost of = { λ n. n };

    ghost value = { λ x. x };

    ghost MAX = { 0xffff_ffff };

    const MAX: u64 = 0xffff_ffff;

    #[tactic(auto, using(crate::specs::BytesLaws::reads_four))]
    fn from_front(s: &[u8]) -> u32 {
        u32::from_le_bytes(front(s))
    }

    fn put_into(self, buf: &mut [u8], at: usize) {
        lay(buf, at, &u32::to_le_bytes(self));
    }

    fn narrow(x: u64) -> u32 {
        x as u32
    }

    ghost holds = { holds32 };

    ghost widens = { λ x n e. e };
}

impl Number for u64 {
    ghost width = { 8 };

    ghost of = { λ n. n };

    ghost value = { λ x. x };

    ghost MAX = { 0xffff_ffff_ffff_ffff };

    const MAX: u64 = 0xffff_ffff_ffff_ffff;

    #[tactic(auto, using(crate::specs::BytesLaws::reads_eight))]
    fn from_front(s: &[u8]) -> u64 {
        u64::from_le_bytes(front(s))
    }

    fn put_into(self, buf: &mut [u8], at: usize) {
        lay(buf, at, &u64::to_le_bytes(self));
    }

    fn narrow(x: u64) -> u64 {
        x
    }

    ghost holds = { holds64 };

    ghost widens = { λ x n e. e };
}

// The number of T's bytes from `at` on; what is past the end counts 0.
pub fn get<T: Number>(s: &[u8], at: usize) -> T
    ensures { result ≡ T.of (num T.width (drop at s.now)) }
{
    T::from_front(tail(s, at))
}

// The number's bytes, least first, from `at` on, as far as there is room.
pub fn put<T: Number>(buf: &mut [u8], at: usize, x: T)
    ensures { buf.new ≡ sets buf.old at (le T.width (T.value x)) }
{
    x.put_into(buf, at);
}
