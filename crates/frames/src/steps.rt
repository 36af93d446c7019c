// What a step of a scan answers, and where a scan stands.
ghost use Rattle.std.specs.Prelude.{◌≡◌};
ghost use Rattle.frames.specs.Refusals.{frame_number, scan_number};

use super::place::Place;
use hash::Hash128;
use numbers::cut::CutShort;

// Where a scan stands, and whether it has ended there.
#[derive(Clone, Copy, PartialEq, Eq)]
pub struct Scanner {
    pub at: usize,
    // Whether META was met. A caller may hand in either, at any place.
    pub ended: bool,
}

// A frame's numbers, and where its key and value lie in the file.
#[derive(Clone, Copy, PartialEq, Eq)]
pub struct ScanEntry {
    pub offset: usize,
    pub key: Place,
    pub seqno: u64,
    pub stated: u32,
    pub value: Place,
}

// An entry whose sum is not tested, with the sum that its header stores.
#[derive(Clone, Copy, PartialEq, Eq)]
pub struct Untested {
    pub entry: ScanEntry,
    pub stored: Hash128,
}

// What a step answers, each case with the scanner after it: document 01's form, an enum whose refused case holds the refusal.
#[derive(Clone, Copy, PartialEq, Eq)]
pub enum Step<E, R> {
    Entry(E, Scanner),
    End { at: usize, next: Scanner },
    Refused(R, Scanner),
}

pub type Framed = Step<Untested, FrameRefusal>;

pub type Scanned = Step<ScanEntry, ScanRefusal>;

#[derive(Clone, Copy, Debug, PartialEq, Eq)]
pub enum FrameRefusal {
    CutShort(CutShort),
    InvalidHeader { at: usize },
}

// A frame's two cases stand here again, beside the third: document 01's step has one refusal with its details, which a caller takes apart by one match.
#[derive(Clone, Copy, Debug, PartialEq, Eq)]
pub enum ScanRefusal {
    CutShort(CutShort),
    InvalidHeader {
        at: usize,
    },
    Mismatch {
        at: usize,
        stored: Hash128,
        computed: Hash128,
    },
}

impl FrameRefusal {
    // Document 01's number.
    pub fn number(self) -> u64
        ensures { result ≡ frame_number self }
    {
        match self {
            FrameRefusal::CutShort(_) => 7,
            FrameRefusal::InvalidHeader { at: _ } => 8,
        }
    }
}

impl ScanRefusal {
    // Document 01's number.
    pub fn number(self) -> u64
        ensures { result ≡ scan_number self }
    {
        match self {
            ScanRefusal::CutShort(_) => 7,
            ScanRefusal::InvalidHeader { at: _ } => 8,
            ScanRefusal::Mismatch {
                at: _,
                stored: _,
                computed: _,
            } => 9,
        }
    }
}
