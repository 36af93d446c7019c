// Writes LENGTH LOW HIGH for the first bytes of the published test input at every length from 0 to 4160; the file stdout is the published list:
// xxHash 0.8.3, tests/sanity_test_vectors.h, of the table XSUM_XXH128_testdata the entries of seed 0. The library (libxxhash) computes the same list.
// A line that begins with "joined" follows where key and value hash otherwise than the bytes that they are together.
#![tactic(auto)]

use hash::{Hash128, xxh3_128, xxh3_128_joined};
use std::io;

// The published input: each byte is the top byte of a number that is multiplied by a prime after it.
fn input() -> [u8; 4160] {
    let mut g: u64 = 2654435761;
    std::array::from_fn(|_| {
        let byte = (g >> 56) as u8;
        g = numbers::wide::wrapping_mul(g, 11400714785074694797);
        byte
    })
}

fn show(rt: &impl Print, n: usize, h: Hash128) -> io::Result<()> {
    println!(rt; "{n} {:016x} {:016x}", h.low, h.high)
}

fn vector(rt: &impl Print, s: &[u8]) -> io::Result<()> {
    let n = s.len();
    let whole = xxh3_128(s);
    show(rt, n, whole)?;
    for at in [0, 1, n / 2, n.saturating_sub(1), n] {
        let (key, value) = s.split_at(at.min(n));
        let joined = xxh3_128_joined(key, value);
        if joined != whole {
            print!(rt; "joined ")?;
            show(rt, at, joined)?;
        }
    }
    Ok(())
}

fn main(rt: HostRuntime) -> io::Result<()> {
    let bytes = input();
    // By length: no iterator gives the beginnings of a slice.
    for n in 0..=bytes.len() {
        vector(&rt, &bytes[..n])?;
    }
    Ok(())
}
