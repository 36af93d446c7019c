// The ratio of two lengths in binary32, in document 01's form: each rounded to 24 bits in integers, scaled exactly, then one division.
ghost use Rattle.std.specs.Prelude.{◌≡◌, ◌+◌, ◌*◌, ◌^◌, ◌<◌, ◌≤◌, pos};
ghost use Rattle.std.specs.Float.{binary32};
ghost use Rattle.std.specs.Float.Ieee.{of_int};
ghost use Rattle.garbage.specs.Ratio.{rounded, lost, round24_of, ratio_of};

// A number as a mantissa of at most 2^24, times 2^shift.
#[derive(Clone, Copy)]
pub struct Rounded {
    pub mantissa: u64,
    pub shift: u32,
}

// How many bits of `x` are lost on the way to 24.
fn lost_bits(x: u64) -> u32
    ensures { result ≡ lost x }
{
    40u32.saturating_sub(x.leading_zeros())
}

// `x` in multiples of 2^k, to the nearest, ties to even.
fn round_at(x: u64, k: u32) -> u64
    requires { k ≤ 40 }
    ensures { result ≡ rounded k x }
{
    let u = 1u64 << k;
    let q = x / u;
    let r = x % u;
    let half = r * 2;
    if half < u {
        return q;
    }
    if half == u {
        return q + q % 2;
    }
    q + 1
}

pub fn round24(x: u64) -> Rounded
    ensures { result ≡ round24_of x }
{
    let k = lost_bits(x);
    let m = round_at(x, k);
    Rounded {
        mantissa: m,
        shift: k,
    }
}

// 2^k as a float.
fn power(k: u32) -> f32
    requires { k ≤ 24 }
    ensures { result ≡ of_int binary32 (pos (2 ^ k)) }
{
    let u = 1u64 << k;
    u as f32
}

// `x` rounded to the nearest f32, ties to even.
pub fn to_f32(x: u64) -> f32
    ensures { result ≡ of_int binary32 (pos x) }
{
    let r = round24(x);
    let m = r.mantissa as f32;
    let a = r.shift / 2;
    let b = r.shift - a;
    m * power(a) * power(b)
}

pub fn ratio(part: u64, whole: u64) -> f32
    ensures { result ≡ ratio_of part whole }
{
    to_f32(part) / to_f32(whole)
}
