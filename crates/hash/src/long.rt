// More than 240 bytes: eight accumulators over stripes of 64 bytes.
ghost use Rattle.std.specs.Prelude.{◌≡◌, ◌+◌, ◌-◌, ◌*◌, ◌^◌, ◌<◌, ◌≤◌, length};
ghost use Rattle.hash.specs.Notation.{u64s};
ghost use Rattle.hash.specs.Secret.{secret_length};
ghost use Rattle.hash.specs.Large.{acc_large, accumulate, round_scramble, final_merge, XXH3_128_large};
ghost use Rattle.hash.specs.ShapeLong.{lane_of, block_end, stripes_of, finish_of};
ghost use Rattle.hash.specs.XXH3.{xxh3_128};

use super::primes::{
    PRIME32_1, PRIME32_2, PRIME32_3, PRIME64_1, PRIME64_2, PRIME64_3, PRIME64_4, PRIME64_5,
};
use super::secret::word;
use super::words::{avalanche, fold, read64};
use super::{Hash128, early};
use numbers::wide::wrapping_mul;

pub(crate) const START: [u64; 8] = [
    PRIME32_3, PRIME64_1, PRIME64_2, PRIME64_3, PRIME64_4, PRIME32_2, PRIME64_5, PRIME32_1,
];

// Lane k takes its word d of the stripe, mixed with its word x of the secret; its neighbour takes d as it is. The accumulators go by value: through a `&mut`,
// 577 bytes take 1,096 instructions and not 665. What a call makes of them gets a name of its own first: it can't be laid over the call's argument.
pub(crate) fn lane(acc: [u64; 8], k: usize, d: u64, x: u64) -> [u64; 8]
    requires { k < 8 }
    ensures { result ≡ lane_of k d x acc }
{
    let mut r = acc;
    let v = d ^ x;
    r[k ^ 1] = r[k ^ 1].wrapping_add(d);
    r[k] = r[k].wrapping_add((v % 0x1_0000_0000) * (v >> 32));
    r
}

// One stripe: the 64 bytes of s from i on, the words of the secret from o on. k is the place of the bytes and of the secret's word, too.
pub(crate) fn accumulate(acc: [u64; 8], s: &[u8], i: usize, o: usize) -> [u64; 8]
    requires { (i + 64 ≤ length s.now) × (o ≤ 128) }
    ensures { result ≡ accumulate (u64s s.now i) o acc }
{
    let mut r = acc;
    for k in 0..8 {
        let q = lane(r, k, read64(s, i + 8 * k), word(o + 8 * k));
        r = q;
    }
    r
}

fn scramble(acc: [u64; 8]) -> [u64; 8]
    ensures { result ≡ round_scramble acc }
{
    let mut r = acc;
    for (k, lane) in r.iter_mut().enumerate() {
        let x = (*lane ^ (*lane >> 47)) ^ word(128 + 8 * k);
        *lane = wrapping_mul(x, PRIME32_1);
    }
    r
}

// After a block's last stripe, the t-th of the string, the accumulators are scrambled.
fn block_end(acc: [u64; 8], t: usize) -> [u64; 8]
    ensures { result ≡ block_end t acc }
{
    if t % 16 == 15 {
        return scramble(acc);
    }
    acc
}

// n stripes of s from i on, the first of which is the t-th of its string.
pub(crate) fn go_on(acc: [u64; 8], s: &[u8], i: usize, t: usize, n: usize) -> [u64; 8]
    requires { (i + 64 * n ≤ length s.now) × (t + n < 2 ^ 58) }
    ensures { result ≡ stripes_of s.now i t n acc }
{
    let mut r = acc;
    for k in 0..n {
        let q = block_end(accumulate(r, s, i + 64 * k, 8 * ((t + k) % 16)), t + k);
        r = q;
    }
    r
}

// The first n stripes of s.
pub(crate) fn begin(s: &[u8], n: usize) -> [u64; 8]
    requires { 64 * n ≤ length s.now }
    ensures { result ≡ stripes_of s.now 0 0 n acc_large }
{
    go_on(START, s, 0, 0, n)
}

// The last 64 bytes, from i on.
pub(crate) fn last(acc: [u64; 8], s: &[u8], i: usize) -> [u64; 8]
    requires { i + 64 ≤ length s.now }
    ensures { result ≡ accumulate (u64s s.now i) (secret_length - 71) acc }
{
    accumulate(acc, s, i, 121)
}

// A half of the hash: all accumulators go into r, with the words of the secret from o on; i is their place, too.
fn merge(acc: [u64; 8], r: u64, o: usize) -> u64
    requires { o ≤ 128 }
    ensures { result ≡ final_merge acc r o }
{
    let mut h = r;
    for i in 0..4 {
        let a = acc[2 * i] ^ word(o + 16 * i);
        let b = acc[2 * i + 1] ^ word(o + 16 * i + 8);
        h = h.wrapping_add(fold(a, b));
    }
    avalanche(h)
}

// Of n bytes in all.
pub(crate) fn finish(acc: [u64; 8], n: u64) -> Hash128
    ensures { result ≡ finish_of n acc }
{
    Hash128 {
        low: merge(acc, wrapping_mul(n, PRIME64_1), 11),
        high: merge(acc, !wrapping_mul(n, PRIME64_2), 117),
    }
}

// The first n stripes of s, three or more.
fn stripes(s: &[u8], n: usize) -> [u64; 8]
    requires { (64 * n ≤ length s.now) × (3 ≤ n) }
    ensures { result ≡ stripes_of s.now 0 0 n acc_large }
{
    let m = s.len();
    if n <= 8 {
        return early::stripes(accumulate(START, s, 0, 0), &s[..m], 64, n - 1);
    }
    begin(&s[..m], n)
}

fn from_241(s: &[u8]) -> Hash128
    requires { 240 < length s.now }
    ensures { result ≡ XXH3_128_large s.now }
{
    let n = s.len();
    finish(last(stripes(s, (n - 1) / 64), s, n - 64), n as u64)
}

pub(crate) fn over_240(s: &[u8]) -> Hash128
    requires { 240 < length s.now }
    ensures { result ≡ xxh3_128 s.now }
{
    let n = s.len();
    from_241(&s[..n])
}
