// A frame's header: its mark, its numbers and its sum.
ghost use Rattle.std.specs.Prelude.{◌≡◌, ◌+◌, ◌<◌, ◌≤◌, ◌^◌, length};
ghost use Rattle.std.proofs.lemmas.List.Edits.{sets};
ghost use Rattle.numbers.specs.Le.{le};
ghost use Rattle.frames.specs.Layout.{header_length, header_bytes, header_of, starts};

use hash::Hash128;
use numbers::{get, put};

// "BLOB" and "META", least byte first.
pub(crate) const BLOB: u32 = 0x424f_4c42;

pub(crate) const META: u32 = 0x4154_454d;

// As in the Rust: the mark and the numbers before the key.
pub(crate) const BLOB_HEADER_LEN: usize = 38;

#[derive(Clone, Copy)]
pub(crate) struct Header {
    pub sum: Hash128,
    pub seqno: u64,
    pub key: u16,
    pub stated: u32,
    pub size: u32,
}

// Whether p starts with the mark.
pub(crate) fn marked(p: &[u8], mark: u32) -> bool
    requires { 4 ≤ length p.now }
    ensures { result ≡ starts (le 4 mark) p.now }
{
    get::<u32>(p, 0) == mark
}

// The numbers of the header at the front of p; a line for each field, at the place that the document's table gives.
pub(crate) fn read_header(p: &[u8]) -> Header
    ensures { result ≡ header_of p.now }
{
    Header {
        sum: Hash128 {
            low: get(p, 4),
            high: get(p, 12),
        },
        seqno: get(p, 20),
        key: get(p, 28),
        stated: get(p, 30),
        size: get(p, 34),
    }
}

// The header's bytes from `at` on; a line for each field, at the place that the document's table gives.
pub(crate) fn put_header(buf: &mut [u8], at: usize, h: Header)
    requires { at + header_length < 2 ^ 64 }
    ensures { buf.new ≡ sets buf.old at (header_bytes h) }
{
    put(buf, at, BLOB);
    put(buf, at + 4, h.sum.low);
    put(buf, at + 12, h.sum.high);
    put(buf, at + 20, h.seqno);
    put(buf, at + 28, h.key);
    put(buf, at + 30, h.stated);
    put(buf, at + 34, h.size);
}
