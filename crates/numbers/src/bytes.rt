// Parts of lent bytes, and a copy of bytes.
ghost use Rattle.std.specs.Prelude.{◌≡◌, ◌-◌, min, length, take, drop};
ghost use Rattle.std.proofs.lemmas.List.Edits.{sets};
ghost use Rattle.numbers.specs.Part.{behind};

// `room` and `lesser` are the library's `saturating_sub` and `min`: they stay as public calls that docs/PROMISES.md names.
// How many of n stand from at on; none where at is past them.
pub fn room(n: usize, at: usize) -> usize
    ensures { result ≡ n - at }
{
    n.saturating_sub(at)
}

pub fn lesser(a: usize, b: usize) -> usize
    ensures { result ≡ min a b }
{
    a.min(b)
}

// What stands from `at` on, where it lies; nothing where `at` is past the end.
pub fn tail(s: &[u8], at: usize) -> &[u8]
    ensures { (result.now ≡ drop at s.now) × (result.ref_ptr ≡ behind s.entry.ref_ptr (min at (length s.now))) }
{
    let a = lesser(at, s.len());
    &s[a..]
}

// The `len` bytes from `at` on, or as many as there are, where they lie.
pub fn part(s: &[u8], at: usize, len: usize) -> &[u8]
    ensures { (result.now ≡ take len (drop at s.now)) × (result.ref_ptr ≡ behind s.entry.ref_ptr (min at (length s.now))) }
{
    let t = tail(s, at);
    let n = lesser(len, t.len());
    &t[..n]
}

// src into buf from `at`, as far as there is room.
pub fn copy(buf: &mut [u8], at: usize, src: &[u8])
    ensures { buf.new ≡ sets buf.old at src.now }
{
    let n = lesser(src.len(), room(buf.len(), at));
    // By the number: the library's `copy_from_slice` asks the linker for a `memmove`, which an archive of these crates did without.
    for i in 0..n {
        buf[at + i] = src[i];
    }
}
