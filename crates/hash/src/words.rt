// Words read from bytes, and the mixes that every length shares.
ghost use Rattle.std.specs.Prelude.{◌≡◌, ◌+◌, ◌≤◌, length, drop};
ghost use Rattle.numbers.specs.Le.{num};
ghost use Rattle.hash.specs.Secret.{avalanche, avalanche_XXH64};
ghost use Rattle.hash.specs.Shape.{fold_of};

use super::primes::{PRIME_MX1, PRIME64_2, PRIME64_3};
use numbers::wide::{high_product, wrapping_mul};

// Four bytes of s from i on, the lowest first. Each of the two names its bytes: a single load, of which the compiler makes vectors. By numbers' `get`, which tests
// for the end, 64 bytes take 161 instructions and not 120, and 577 bytes 2,613 and not 665.
pub(crate) fn read32(s: &[u8], i: usize) -> u32
    requires { i + 4 ≤ length s.now }
    ensures { result ≡ num 4 (drop i s.now) }
{
    u32::from_le_bytes([s[i], s[i + 1], s[i + 2], s[i + 3]])
}

// Eight bytes of s from i on, the lowest first.
pub(crate) fn read64(s: &[u8], i: usize) -> u64
    requires { i + 8 ≤ length s.now }
    ensures { result ≡ num 8 (drop i s.now) }
{
    u64::from_le_bytes([
        s[i],
        s[i + 1],
        s[i + 2],
        s[i + 3],
        s[i + 4],
        s[i + 5],
        s[i + 6],
        s[i + 7],
    ])
}

// The halves of the product of a and b, mixed.
pub(crate) fn fold(a: u64, b: u64) -> u64
    ensures { result ≡ fold_of a b }
{
    wrapping_mul(a, b) ^ high_product(a, b)
}

pub(crate) fn avalanche(x: u64) -> u64
    ensures { result ≡ avalanche x }
{
    let y = wrapping_mul(x ^ (x >> 37), PRIME_MX1);
    y ^ (y >> 32)
}

pub(crate) fn avalanche_xxh64(x: u64) -> u64
    ensures { result ≡ avalanche_XXH64 x }
{
    let y = wrapping_mul(x ^ (x >> 33), PRIME64_2);
    let z = wrapping_mul(y ^ (y >> 29), PRIME64_3);
    z ^ (z >> 32)
}
