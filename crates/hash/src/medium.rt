// 17 to 240 bytes of a text, be it one slice or key and value: two accumulators.
ghost use Rattle.std.specs.Prelude.{◌≡◌, ◌+◌, ◌-◌, ◌*◌, ◌^◌, ◌<◌, ◌≤◌, bit_xor, length};
ghost use Rattle.hash.specs.Notation.{add64};
ghost use Rattle.hash.specs.Secret.{seed};
ghost use Rattle.hash.specs.Medium.{acc_medium, avalanche_both, mix_step, mix_two_chunks, round_inward, XXH3_128_17to240};
ghost use Rattle.hash.specs.Shape.{words_of, chunk_onward};
ghost use Rattle.hash.specs.XXH3.{XXH3_128_17to128, XXH3_128_129to240, xxh3_128};

use super::Hash128;
use super::primes::{PRIME64_1, PRIME64_2, PRIME64_4};
use super::secret::word;
use super::text::{Text, Two};
use super::words::{avalanche, fold};
use numbers::wide::wrapping_mul;

// The two accumulators.
#[derive(Clone, Copy)]
pub struct Acc {
    pub a0: u64,
    pub a1: u64,
}

// One accumulator: the words of p with the secret's from o on, the words of q as they are.
fn mix_half(acc: u64, p: Two, q: Two, o: usize) -> u64
    requires { o ≤ 176 }
    ensures { result ≡ bit_xor (add64 acc (mix_step (words_of p) o seed)) (add64 q.x q.y) }
{
    acc.wrapping_add(fold(p.x ^ word(o), p.y ^ word(o + 8))) ^ q.x.wrapping_add(q.y)
}

// Two times 16 bytes, with four words of the secret.
#[inline(always)]
fn mixed(acc: Acc, p: Two, q: Two, o: usize) -> Acc
    requires { o ≤ 160 }
    ensures { result ≡ mix_two_chunks (words_of p) (words_of q) o seed acc }
{
    Acc {
        a0: mix_half(acc.a0, p, q, o),
        a1: mix_half(acc.a1, q, p, o + 16),
    }
}

fn start(n: u64) -> Acc
    ensures { result ≡ acc_medium n }
{
    Acc {
        a0: wrapping_mul(n, PRIME64_1),
        a1: 0,
    }
}

fn stir(acc: Acc) -> Acc
    ensures { result ≡ avalanche_both acc }
{
    Acc {
        a0: avalanche(acc.a0),
        a1: avalanche(acc.a1),
    }
}

fn finish(acc: Acc, n: u64) -> Hash128
    ensures { result ≡ XXH3_128_17to240 n acc }
{
    let high = wrapping_mul(acc.a0, PRIME64_1)
        .wrapping_add(wrapping_mul(acc.a1, PRIME64_4))
        .wrapping_add(wrapping_mul(n, PRIME64_2));
    Hash128 {
        low: avalanche(acc.a0.wrapping_add(acc.a1)),
        high: 0u64.wrapping_sub(avalanche(high)),
    }
}

// Round i from both ends inward. Inlined, so that the secret's words are numbers.
#[inline(always)]
fn inward<T: Text>(acc: Acc, s: &T, i: usize) -> Acc
    requires { (i < 4) × (16 < length (T.bytes s.now)) × (32 * i < length (T.bytes s.now)) }
    ensures { result ≡ round_inward (T.bytes s.now) i acc }
{
    mixed(acc, s.front(16 * i), s.back(16 * i + 16), 32 * i)
}

// Chunk i from the front on, with the secret's words from o on.
#[inline(always)]
fn onward<T: Text>(acc: Acc, s: &T, i: usize, o: usize) -> Acc
    requires { (i < 7) × (32 * i + 32 ≤ length (T.bytes s.now)) × (o ≤ 160) }
    ensures { result ≡ chunk_onward (T.bytes s.now) i o acc }
{
    mixed(acc, s.front(32 * i), s.front(32 * i + 16), o)
}

// One round, with no test: by from_17_to_128, a key and value of 32 bytes take 150 instructions and not 118.
pub(crate) fn from_17_to_32<T: Text>(s: &T) -> Hash128
    requires { (16 < length (T.bytes s.now)) × (length (T.bytes s.now) ≤ 32) }
    ensures { result ≡ xxh3_128 (T.bytes s.now) }
{
    let n = s.len() as u64;
    finish(inward(start(n), s, 0), n)
}

// Two rounds, with no test between them: by from_17_to_128, a key and value of 50 bytes take 183 instructions and not 163.
pub(crate) fn from_33_to_64<T: Text>(s: &T) -> Hash128
    requires { (32 < length (T.bytes s.now)) × (length (T.bytes s.now) ≤ 64) }
    ensures { result ≡ xxh3_128 (T.bytes s.now) }
{
    let n = s.len() as u64;
    finish(inward(inward(start(n), s, 1), s, 0), n)
}

// The rounds stand one by one: in a loop, 100 bytes take 186 instructions and not 164.
pub(crate) fn from_17_to_128<T: Text>(s: &T) -> Hash128
    requires { (16 < length (T.bytes s.now)) × (length (T.bytes s.now) ≤ 128) }
    ensures { result ≡ xxh3_128 (T.bytes s.now) }
{
    let n = s.len();
    let mut acc = start(n as u64);
    if 32 < n {
        if 64 < n {
            if 96 < n {
                acc = inward(acc, s, 3);
            }
            acc = inward(acc, s, 2);
        }
        acc = inward(acc, s, 1);
    }
    finish(inward(acc, s, 0), n as u64)
}

// The chunks stand one by one: with the first four in a loop, a key and value of 200 bytes take 411 instructions and not 348; with the last three in one, a slice
// of 240 bytes takes 280 and not 269.
pub(crate) fn from_129_to_240<T: Text>(s: &T) -> Hash128
    requires { (128 < length (T.bytes s.now)) × (length (T.bytes s.now) ≤ 240) }
    ensures { result ≡ xxh3_128 (T.bytes s.now) }
{
    let n = s.len();
    let mut acc = start(n as u64);
    acc = onward(acc, s, 0, 0);
    acc = onward(acc, s, 1, 32);
    acc = onward(acc, s, 2, 64);
    acc = onward(acc, s, 3, 96);
    acc = stir(acc);
    if 160 <= n {
        acc = onward(acc, s, 4, 3);
    }
    if 192 <= n {
        acc = onward(acc, s, 5, 35);
    }
    if 224 <= n {
        acc = onward(acc, s, 6, 67);
    }
    finish(mixed(acc, s.back(16), s.back(32), 103), n as u64)
}

fn from_17_to_240(s: &[u8]) -> Hash128
    requires { (16 < length s.now) × (length s.now ≤ 240) }
    ensures { result ≡ xxh3_128 s.now }
{
    if s.len() <= 128 {
        return from_17_to_128(&s);
    }
    from_129_to_240(&s)
}

pub(crate) fn upto_240(s: &[u8]) -> Hash128
    requires { (16 < length s.now) × (length s.now ≤ 240) }
    ensures { result ≡ xxh3_128 s.now }
{
    let n = s.len();
    from_17_to_240(&s[..n])
}
