// XXH3-128.
ghost use Rattle.std.specs.Prelude.{◌≡◌, ◌++◌};
ghost use Rattle.hash.specs.XXH3.{xxh3_128};

use hash::{xxh3_128, xxh3_128_joined};

// The low half. Two halves, each stored alone: read back as a pair they would wait for both stores.
#[unsafe(no_mangle)]
pub extern "C" fn pd_hash(s: &[u8], high: &mut u64) -> u64
    ensures low { result ≡ (xxh3_128 s.now).low }
    ensures high { high.new ≡ (xxh3_128 s.now).high }
{
    let h = xxh3_128(s);
    *high = h.high;
    h.low
}

#[unsafe(no_mangle)]
pub extern "C" fn pd_hash_joined(key: &[u8], value: &[u8], high: &mut u64) -> u64
    ensures low { result ≡ (xxh3_128 (key.now ++ value.now)).low }
    ensures high { high.new ≡ (xxh3_128 (key.now ++ value.now)).high }
{
    let h = xxh3_128_joined(key, value);
    *high = h.high;
    h.low
}
