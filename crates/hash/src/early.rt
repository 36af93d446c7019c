// The second to the eighth stripe of a string of more than 240 bytes.
ghost use Rattle.std.specs.Prelude.{◌≡◌, ◌+◌, ◌*◌, ◌≤◌, length};
ghost use Rattle.hash.specs.ShapeLong.{stripes_of};

use super::long::accumulate;

// n stripes of s from i on, two to seven, the first of which is the second of its string. They stand one by one, so that the secret's words are numbers: by
// long::go_on, 241 bytes take 369 instructions and not 311.
pub(crate) fn stripes(acc: [u64; 8], s: &[u8], i: usize, n: usize) -> [u64; 8]
    requires { (i + 64 * n ≤ length s.now) × (2 ≤ n) × (n ≤ 7) }
    ensures { result ≡ stripes_of s.now i 1 n acc }
{
    let a = accumulate(acc, s, i, 8);
    let b = accumulate(a, s, i + 64, 16);
    if n == 2 {
        return b;
    }
    let c = accumulate(b, s, i + 128, 24);
    if n == 3 {
        return c;
    }
    let d = accumulate(c, s, i + 192, 32);
    if n == 4 {
        return d;
    }
    let e = accumulate(d, s, i + 256, 40);
    if n == 5 {
        return e;
    }
    let f = accumulate(e, s, i + 320, 48);
    if n == 6 {
        return f;
    }
    accumulate(f, s, i + 384, 56)
}
