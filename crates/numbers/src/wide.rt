// Products of words of 64 bits from the halves of their factors, and the library's turns and swaps, promised in the words of the definitions.
// Each stays, the two swaps by their widths, as a public call that docs/PROMISES.md names.
ghost use Rattle.std.specs.Prelude.{◌≡◌, ◌*◌, ◌/◌, ◌^◌};
ghost use Rattle.numbers.specs.Wide.{mul64, wide_of, rotl32, bswap};

// The two halves of a product of 128 bits.
#[derive(Clone, Copy, Debug, PartialEq, Eq)]
pub struct Wide {
    pub low: u64,
    pub high: u64,
}

// The product modulo 2^64.
pub fn wrapping_mul(a: u64, b: u64) -> u64
    ensures { result ≡ mul64 a b }
{
    let al = a % 0x1_0000_0000;
    let ah = a >> 32;
    let bl = b % 0x1_0000_0000;
    let bh = b >> 32;
    let cross = (al * bh).wrapping_add(ah * bl);
    (cross << 32).wrapping_add(al * bl)
}

// The upper half of the product.
pub fn high_product(a: u64, b: u64) -> u64
    ensures { result ≡ a * b / 2 ^ 64 }
{
    let al = a % 0x1_0000_0000;
    let ah = a >> 32;
    let bl = b % 0x1_0000_0000;
    let bh = b >> 32;
    let t = ah * bl + ((al * bl) >> 32);
    let u = (t % 0x1_0000_0000) + al * bh;
    ah * bh + (t >> 32) + (u >> 32)
}

// The whole product.
pub fn product(a: u64, b: u64) -> Wide
    ensures { result ≡ wide_of a b }
{
    Wide {
        low: wrapping_mul(a, b),
        high: high_product(a, b),
    }
}

// x turned left by k bit positions.
pub fn rotate_left_u32(x: u32, k: u32) -> u32
    ensures { result ≡ rotl32 x k }
{
    x.rotate_left(k)
}

// The bytes of x in reverse order.
pub fn swap_bytes_u32(x: u32) -> u32
    ensures { result ≡ bswap 4 x }
{
    u32::swap_bytes(x)
}

pub fn swap_bytes_u64(x: u64) -> u64
    ensures { result ≡ bswap 8 x }
{
    u64::swap_bytes(x)
}
