// A text whose bytes are read where they lie, 16 at a time.
ghost use Rattle.std.specs.Prelude.{◌≡◌, ℕ, ◌+◌, ◌-◌, ◌≤◌, List, length};
ghost use Rattle.hash.specs.Shape.{two_at};

use super::words::read64;

// 16 bytes as two words.
#[derive(Clone, Copy)]
pub struct Two {
    pub x: u64,
    pub y: u64,
}

pub(crate) trait Text {
    ghost bytes: { Self → List ℕ };

    fn len(&self) -> usize
        ensures { result ≡ length (bytes self.now) };

    // 16 bytes from i on.
    fn front(&self, i: usize) -> Two
        requires { i + 16 ≤ length (bytes self.now) }
        ensures { result ≡ two_at (bytes self.now) i };

    // 16 bytes from j before the end on.
    fn back(&self, j: usize) -> Two
        requires { (16 ≤ j) × (j ≤ length (bytes self.now)) }
        ensures { result ≡ two_at (bytes self.now) (length (bytes self.now) - j) };
}

// 16 bytes of s from i on.
pub(crate) fn chunk(s: &[u8], i: usize) -> Two
    requires { i + 16 ≤ length s.now }
    ensures { result ≡ two_at s.now i }
{
    Two {
        x: read64(s, i),
        y: read64(s, i + 8),
    }
}

impl Text for &[u8] {
    ghost bytes = { λ s. s.now };

    fn len(&self) -> usize {
        <[u8]>::len(self)
    }

    fn front(&self, i: usize) -> Two {
        chunk(self, i)
    }

    fn back(&self, j: usize) -> Two {
        chunk(self, <[u8]>::len(self) - j)
    }
}
