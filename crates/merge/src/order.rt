// The order of keys: byte strings, a prefix before the longer.
ghost use Rattle.std.specs.Prelude.{◌≡◌};
ghost use Rattle.merge.specs.Order.{order_of};

use numbers::bytes::{part, tail};
use std::cmp::Ordering;

// The library's order, asked of the first eight bytes and then of what follows: of keys of 64 bytes and more it looks at whole blocks at a time, and most
// keys differ before.
pub fn compare(a: &[u8], b: &[u8]) -> Ordering
    ensures { result ≡ order_of a.now b.now }
{
    let first = part(a, 0, 8).cmp(&part(b, 0, 8));
    if first.is_ne() {
        return first;
    }
    tail(a, 8).cmp(&tail(b, 8))
}
