// A number's shortest spelling, counted and laid down where it fits.
ghost use Rattle.std.specs.Prelude.{◌≡◌, ◌+◌, ◌≤◌, length};
ghost use Rattle.std.proofs.lemmas.List.Edits.{sets};
ghost use Rattle.numbers.specs.Leb128.{shortest};

use crate::number::Number;

// How many bytes the shortest spelling has: one to ten.
pub(crate) fn size<T: Number>(x: T) -> usize
    ensures size { result ≡ length (shortest (T.value x)) }
    ensures bound { result ≤ 10 }
{
    let x: u64 = x.into();
    let top = x.max(1).ilog2();
    top as usize / 7 + 1
}

// Lays the spelling down and answers the place after it. What is left ends the loop: a `for` over the places has to count them first (a handle takes
// 172 instructions so, and not 135).
pub(crate) fn spell<T: Number>(buf: &mut [u8], at: usize, x: T) -> usize
    requires { at + length (shortest (T.value x)) ≤ length buf.old }
    ensures end { result ≡ at + length (shortest (T.value x)) }
    ensures bytes { buf.new ≡ sets buf.old at (shortest (T.value x)) }
{
    let mut left: u64 = x.into();
    let mut to = at;
    while 128 <= left {
        buf[to] = (left % 128 + 128) as u8;
        left /= 128;
        to += 1;
    }
    buf[to] = left as u8;
    to + 1
}
