// XXH3, 128 bits, seed 0 and default secret: of a slice, and of a key and a value as one string.
#![tactic(auto)]

ghost use Rattle.std.specs.Prelude.{◌≡◌, ◌++◌};
ghost use Rattle.hash.specs.XXH3.{xxh3_128};

mod border;
mod early;
mod joined;
mod long;
mod medium;
mod primes;
mod secret;
mod short;
mod text;
mod words;

// The two halves of a hash.
#[derive(Clone, Copy, Debug, PartialEq, Eq)]
pub struct Hash128 {
    pub low: u64,
    pub high: u64,
}

// Small, so that it is compiled into its callers. A class of lengths stays a function of its own where it is called from two places; and it takes a slice's two
// words in registers where all that it does with the slice is to make it anew, `&s[..n]`.
pub fn xxh3_128(s: &[u8]) -> Hash128
    ensures { result ≡ xxh3_128 s.now }
{
    let n = s.len();
    if n <= 16 {
        return short::upto_16(s);
    }
    if n <= 240 {
        return medium::upto_240(s);
    }
    long::over_240(s)
}

// The hash of key and value as one string.
pub fn xxh3_128_joined(key: &[u8], value: &[u8]) -> Hash128
    ensures { result ≡ xxh3_128 (key.now ++ value.now) }
{
    let m = key.len();
    let n = value.len();
    if m + n <= 32 {
        return joined::upto_32(key, value);
    }
    if 240 < m {
        return joined::over_240(key, value);
    }
    if n <= 240 - m {
        return joined::upto_240(key, value);
    }
    joined::over_240(key, value)
}
