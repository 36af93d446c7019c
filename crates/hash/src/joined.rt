// Key and value as one string. The classes take the two slices of the call: up to 16 bytes, and of an empty key above 240, no Joined is made.
ghost use Rattle.std.specs.Prelude.{◌≡◌, ◌+◌, ◌-◌, ◌*◌, ◌/◌, ◌<◌, ◌≤◌, ◌++◌, length, take, drop};
ghost use Rattle.hash.specs.Notation.{u64s};
ghost use Rattle.hash.specs.Secret.{secret_length};
ghost use Rattle.hash.specs.Large.{acc_large, accumulate};
ghost use Rattle.hash.specs.ShapeLong.{stripes_of};
ghost use Rattle.hash.specs.XXH3.{xxh3_128};

use super::border::Joined;
use super::long::{START, lane};
use super::medium::{from_17_to_32, from_17_to_128, from_33_to_64, from_129_to_240};
use super::secret::word;
use super::short::upto_16;
use super::text::Text;
use super::{Hash128, early, long, medium};
use numbers::bytes::copy;

// Up to 16 bytes, gathered. An empty key leaves one slice.
fn gathered(key: &[u8], value: &[u8]) -> Hash128
    requires { length key.now + length value.now ≤ 16 }
    ensures { result ≡ xxh3_128 (key.now ++ value.now) }
{
    if key.len() == 0 {
        return upto_16(value);
    }
    let mut buf = [0u8; 16];
    let m = key.len();
    let n = m + value.len();
    copy(&mut buf, 0, key);
    copy(&mut buf, m, value);
    upto_16(&buf[..n])
}

fn from_0_to_32(key: &[u8], value: &[u8]) -> Hash128
    requires { length key.now + length value.now ≤ 32 }
    ensures { result ≡ xxh3_128 (key.now ++ value.now) }
{
    if key.len() + value.len() <= 16 {
        return gathered(key, value);
    }
    from_17_to_32(&Joined::new(key, value))
}

pub(crate) fn upto_32(key: &[u8], value: &[u8]) -> Hash128
    requires { length key.now + length value.now ≤ 32 }
    ensures { result ≡ xxh3_128 (key.now ++ value.now) }
{
    let m = key.len();
    let n = value.len();
    from_0_to_32(&key[..m], &value[..n])
}

// A string shorter than the class goes to the class before. An empty key leaves one slice, here and in from_241.
fn from_33_to_240(key: &[u8], value: &[u8]) -> Hash128
    requires { length key.now + length value.now ≤ 240 }
    ensures { result ≡ xxh3_128 (key.now ++ value.now) }
{
    let n = key.len() + value.len();
    if n <= 32 {
        return upto_32(key, value);
    }
    let s = Joined::new(key, value);
    if n <= 64 {
        return from_33_to_64(&s);
    }
    if n <= 128 {
        return from_17_to_128(&s);
    }
    if key.len() == 0 {
        return medium::upto_240(value);
    }
    from_129_to_240(&s)
}

pub(crate) fn upto_240(key: &[u8], value: &[u8]) -> Hash128
    requires { length key.now + length value.now ≤ 240 }
    ensures { result ≡ xxh3_128 (key.now ++ value.now) }
{
    let m = key.len();
    let n = value.len();
    from_33_to_240(&key[..m], &value[..n])
}

// The 64 bytes from i on, of which the first stand in key.
fn across(s: &Joined, i: usize) -> [u8; 64]
    requires { (i ≤ length s.now.key.now) × (length s.now.key.now ≤ i + 64) × (i + 64 ≤ length s.now.key.now + length s.now.value.now) }
    ensures { result ≡ take 64 (drop i (s.now.key.now ++ s.now.value.now)) }
{
    let mut buf = [0u8; 64];
    let m = s.key.len() - i;
    copy(&mut buf, 0, &s.key[i..]);
    copy(&mut buf, m, &s.value[..64 - m]);
    buf
}

// The first stripe, read by words; i is the secret's place, too.
fn first(s: &Joined) -> [u64; 8]
    requires { 64 ≤ length s.now.key.now + length s.now.value.now }
    ensures { result ≡ stripes_of (s.now.key.now ++ s.now.value.now) 0 0 1 acc_large }
{
    let mut r = START;
    for i in 0..4 {
        let p = s.front(16 * i);
        let q = lane(r, 2 * i, p.x, word(16 * i));
        r = lane(q, 2 * i + 1, p.y, word(16 * i + 8));
    }
    r
}

// The stripes that begin in key, p of them whole, with the one that crosses to value.
fn border(s: &Joined, p: usize) -> [u64; 8]
    requires { (p ≡ length s.now.key.now / 64) × (64 * (p + 1) ≤ length s.now.key.now + length s.now.value.now) }
    ensures { result ≡ stripes_of (s.now.key.now ++ s.now.value.now) 0 0 (p + 1) acc_large }
{
    let b = across(s, 64 * p);
    long::go_on(long::begin(s.key, p), &b, 0, p, 1)
}

// A first stripe that crosses is read by words.
fn stripes(s: &Joined) -> [u64; 8]
    requires { 240 < length s.now.key.now + length s.now.value.now }
    ensures { result ≡ stripes_of (s.now.key.now ++ s.now.value.now) 0 0 ((length s.now.key.now + length s.now.value.now - 1) / 64) acc_large }
{
    let m = s.key.len();
    let v = s.value.len();
    let p = m / 64;
    let n = (m + v - 1) / 64;
    if p == 0 {
        let r = first(s);
        if n <= 8 {
            return early::stripes(r, &s.value[..v], 64 - m, n - 1);
        }
        return long::go_on(r, &s.value[..v], 64 - m, 1, n - 1);
    }
    if n <= p {
        return long::begin(s.key, n);
    }
    let r = border(s, p);
    long::go_on(r, &s.value[..v], 64 * (p + 1) - m, p + 1, n - (p + 1))
}

fn last(acc: [u64; 8], s: &Joined) -> [u64; 8]
    requires { 64 ≤ length s.now.key.now + length s.now.value.now }
    ensures { result ≡ accumulate (u64s (s.now.key.now ++ s.now.value.now) (length s.now.key.now + length s.now.value.now - 64)) (secret_length - 71) acc }
{
    let n = s.value.len();
    if 64 <= n {
        return long::last(acc, s.value, n - 64);
    }
    let b = across(s, s.key.len() + n - 64);
    long::last(acc, &b, 0)
}

fn large(s: &Joined) -> Hash128
    requires { 240 < length s.now.key.now + length s.now.value.now }
    ensures { result ≡ xxh3_128 (s.now.key.now ++ s.now.value.now) }
{
    let n = s.len() as u64;
    long::finish(last(stripes(s), s), n)
}

fn from_241(key: &[u8], value: &[u8]) -> Hash128
    ensures { result ≡ xxh3_128 (key.now ++ value.now) }
{
    if key.len() + value.len() <= 240 {
        return upto_240(key, value);
    }
    if key.len() == 0 {
        return long::over_240(value);
    }
    large(&Joined::new(key, value))
}

pub(crate) fn over_240(key: &[u8], value: &[u8]) -> Hash128
    ensures { result ≡ xxh3_128 (key.now ++ value.now) }
{
    let m = key.len();
    let n = value.len();
    from_241(&key[..m], &value[..n])
}
