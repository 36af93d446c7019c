// 0 to 16 bytes. The secret's words stand as numbers: two words that the description mixes, mixed.
ghost use Rattle.std.specs.Prelude.{◌≡◌, ◌+◌, ◌-◌, ◌*◌, ◌<◌, ◌≤◌, length};
ghost use Rattle.hash.specs.Small.{combined as combinedOf};
ghost use Rattle.hash.specs.Small.{XXH3_128_empty, XXH3_128_1to3, XXH3_128_4to8, XXH3_128_9to16};
ghost use Rattle.hash.specs.Shape.{end4to8, mix4to8, end9to16, mix9to16};
ghost use Rattle.hash.specs.XXH3.{xxh3_128};

use super::Hash128;
use super::primes::{PRIME_MX2, PRIME32_2, PRIME64_1, PRIME64_2};
use super::words::{avalanche, avalanche_xxh64, read32, read64};
use numbers::wide::{high_product, rotate_left_u32, swap_bytes_u32, swap_bytes_u64, wrapping_mul};

fn empty() -> Hash128
    ensures { result ≡ XXH3_128_empty }
{
    Hash128 {
        low: 0x6001_c324_468d_497f,
        high: 0x99aa_06d3_0147_98d8,
    }
}

// The bytes of one to three, with their number, joined by `|` as the description writes it: what it gives is the description's own words.
fn combined(s: &[u8]) -> u32
    requires { (0 < length s.now) × (length s.now ≤ 3) }
    ensures { result ≡ combinedOf s.now }
{
    let n = s.len();
    (s[n - 1] as u32) | ((n as u32) << 8) | ((s[0] as u32) << 16) | ((s[n / 2] as u32) << 24)
}

fn from_1_to_3(s: &[u8]) -> Hash128
    requires { (0 < length s.now) × (length s.now ≤ 3) }
    ensures { result ≡ XXH3_128_1to3 s.now }
{
    let x = combined(s);
    let y = rotate_left_u32(swap_bytes_u32(x), 13);
    Hash128 {
        low: avalanche_xxh64(0x8727_5a9b ^ (x as u64)),
        high: avalanche_xxh64(0x302c_208b ^ (y as u64)),
    }
}

fn end_4_to_8(l: u64, h: u64) -> Hash128
    ensures { result ≡ end4to8 l h }
{
    let x = l ^ (h >> 3);
    let y = wrapping_mul(x ^ (x >> 35), PRIME_MX2);
    Hash128 {
        low: y ^ (y >> 28),
        high: avalanche(h),
    }
}

// The product of x and y, stirred.
fn mix_4_to_8(x: u64, y: u64) -> Hash128
    ensures { result ≡ mix4to8 (x * y) }
{
    let l = wrapping_mul(x, y);
    end_4_to_8(l, high_product(x, y).wrapping_add(l << 1))
}

fn from_4_to_8(s: &[u8]) -> Hash128
    requires { (3 < length s.now) × (length s.now ≤ 8) }
    ensures { result ≡ XXH3_128_4to8 s.now }
{
    let n = s.len();
    let x = (read32(s, 0) as u64) | ((read32(s, n - 4) as u64) << 32);
    mix_4_to_8(0xc4f0_2334_4dc9_94ac ^ x, PRIME64_1 + (n as u64) * 4)
}

fn end_9_to_16(l: u64, h: u64) -> Hash128
    ensures { result ≡ end9to16 l h }
{
    let x = l ^ swap_bytes_u64(h);
    let y = high_product(x, PRIME64_2).wrapping_add(wrapping_mul(h, PRIME64_2));
    Hash128 {
        low: avalanche(wrapping_mul(x, PRIME64_2)),
        high: avalanche(y),
    }
}

fn mix_9_to_16(x: u64, v: u64, n: u64) -> Hash128
    requires { 0 < n }
    ensures { result ≡ mix9to16 (x * 0x9e3779b185ebca87) v n }
{
    let l = wrapping_mul(x, PRIME64_1).wrapping_add((n - 1) << 54);
    let h = high_product(x, PRIME64_1).wrapping_add(v);
    end_9_to_16(l, h.wrapping_add((v % 0x1_0000_0000) * (PRIME32_2 - 1)))
}

fn from_9_to_16(s: &[u8]) -> Hash128
    requires { (8 < length s.now) × (length s.now ≤ 16) }
    ensures { result ≡ XXH3_128_9to16 s.now }
{
    let n = s.len();
    let x = read64(s, 0);
    let y = read64(s, n - 8);
    mix_9_to_16(
        (0x5997_3f00_3336_2349 ^ x) ^ y,
        0xc202_7976_92d6_3d58 ^ y,
        n as u64,
    )
}

fn from_0_to_16(s: &[u8]) -> Hash128
    requires { length s.now ≤ 16 }
    ensures { result ≡ xxh3_128 s.now }
{
    let n = s.len();
    if 8 < n {
        return from_9_to_16(s);
    }
    if 3 < n {
        return from_4_to_8(s);
    }
    if 0 < n {
        return from_1_to_3(s);
    }
    empty()
}

pub(crate) fn upto_16(s: &[u8]) -> Hash128
    requires { length s.now ≤ 16 }
    ensures { result ≡ xxh3_128 s.now }
{
    let n = s.len();
    from_0_to_16(&s[..n])
}
