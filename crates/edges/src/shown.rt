// How what the calls answer is shown on a line. The forms are this program's: another writes a cut or a pointer by a format of its own.
use numbers::cut::CutShort;
use numbers::handle::BlobIndirection;
use std::fmt;

// Where reading began, the bytes needed and the bytes present.
#[derive(Drop)]
pub struct Cut(pub CutShort);

impl fmt::Display for Cut {
    fn fmt<W: fmt::Write>(&self, f: &mut fmt::Formatter<W>) -> fmt::Result {
        let CutShort {
            at,
            needed,
            present,
        } = self.0;
        write!(f, "{at} {needed} {present}")
    }
}

// File id, offset, on-disk and stated length.
#[derive(Drop)]
pub struct Pointer(pub BlobIndirection);

impl fmt::Display for Pointer {
    fn fmt<W: fmt::Write>(&self, f: &mut fmt::Formatter<W>) -> fmt::Result {
        let BlobIndirection { handle, stated } = self.0;
        write!(
            f,
            "{} {} {} {stated}",
            handle.file, handle.offset, handle.size
        )
    }
}

// Whether what a refusal hands back is what came in.
pub fn same(right: bool) -> &'static str {
    if right { "same" } else { "CHANGED" }
}

// Whether every byte is x.
pub fn all(bytes: &[u8], x: u8) -> bool {
    bytes.iter().all(|b| *b == x)
}
