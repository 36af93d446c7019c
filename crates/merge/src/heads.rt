// The head of a part: the entry that stands at its position.
ghost use Rattle.std.specs.Prelude.{true, ◌≡◌, ◌+◌, ◌<◌, ◌^◌, length};
ghost use Rattle.merge.specs.Parts.{inside};
ghost use Rattle.merge.specs.Merge.{entry_of, scan_at, head_of};

use super::parts::Part;
use super::refusals::MergeRefusal;
use frames::place::Place;
use frames::scanner::{ScanEntry, Scanned, Scanner};
use numbers::bytes::part;

// An entry of a part. The offset counts from the part's start; key and value lie in the image.
#[derive(Clone, Copy, PartialEq, Eq)]
pub struct MergeEntry {
    pub part: usize,
    pub file: u64,
    pub offset: usize,
    pub key: Place,
    pub seqno: u64,
    pub stated: u32,
    pub value: Place,
}

// An entry, and the position after it in its part.
#[derive(Clone, Copy, PartialEq, Eq)]
pub struct Head {
    pub entry: MergeEntry,
    pub next: usize,
}

fn entry(i: usize, p: Part, e: ScanEntry) -> MergeEntry
    requires key_fits { p.start + e.key.at < 2 ^ 64 }
    requires value_fits { p.start + e.value.at < 2 ^ 64 }
    ensures { result ≡ entry_of i p e }
{
    MergeEntry {
        part: i,
        file: p.file,
        offset: e.offset,
        key: Place {
            at: p.start + e.key.at,
            len: e.key.len,
        },
        seqno: e.seqno,
        stated: e.stated,
        value: Place {
            at: p.start + e.value.at,
            len: e.value.len,
        },
    }
}

fn scan(image: &[u8], p: Part) -> Scanned
    ensures { result ≡ scan_at image.now p }
{
    let file = part(image, p.start, p.length);
    let s = Scanner {
        at: p.at,
        ended: false,
    };
    s.step(file)
}

// What the scan says at the position of part i: an entry, or none where the part has ended.
pub(crate) fn head_at(image: &[u8], i: usize, p: Part) -> Result<Option<Head>, MergeRefusal>
    requires { inside (length image.now) p ≡ true }
    ensures { result ≡ head_of image.now i p }
{
    match scan(image, p) {
        Scanned::Entry(e, n) => Ok(Some(Head {
            entry: entry(i, p, e),
            next: n.at,
        })),
        Scanned::End { at: _, next: _ } => Ok(None),
        Scanned::Refused(why, _) => Err(MergeRefusal::Scan { part: i, why }),
    }
}
