// The refusals of the merge.
ghost use Rattle.std.specs.Prelude.{◌≡◌};
ghost use Rattle.merge.specs.declared.refusals.RowsRefusal.TheVariants as rows;
ghost use Rattle.merge.specs.declared.refusals.DrainRefusal.TheVariants as drain;
ghost use Rattle.merge.specs.Refusals.{merge_number, rows_number, drain_number};

use frames::scanner::ScanRefusal;

#[derive(Clone, Copy, PartialEq, Eq)]
pub enum MergeRefusal {
    BadPart,
    Scan { part: usize, why: ScanRefusal },
}

#[derive(Clone, Copy, PartialEq, Eq)]
pub enum RowsRefusal {
    Merge(MergeRefusal),
    NoRoom,
}

#[derive(Clone, Copy, PartialEq, Eq)]
pub enum DrainRefusal {
    Merge(MergeRefusal),
    NotMatched,
}

impl From<MergeRefusal> for RowsRefusal {
    ghost from_gives = { λ why e. e ≡ rows.Merge why };

    fn from(refusal: MergeRefusal) -> RowsRefusal {
        RowsRefusal::Merge(refusal)
    }
}

impl From<MergeRefusal> for DrainRefusal {
    ghost from_gives = { λ why e. e ≡ drain.Merge why };

    fn from(refusal: MergeRefusal) -> DrainRefusal {
        DrainRefusal::Merge(refusal)
    }
}

impl MergeRefusal {
    // Document 01's number.
    pub fn number(self) -> u64
        ensures { result ≡ merge_number self }
    {
        match self {
            MergeRefusal::BadPart => 13,
            MergeRefusal::Scan { part: _, why } => why.number(),
        }
    }
}

impl RowsRefusal {
    // Document 01's number.
    pub fn number(self) -> u64
        ensures { result ≡ rows_number self }
    {
        match self {
            RowsRefusal::Merge(why) => why.number(),
            RowsRefusal::NoRoom => 3,
        }
    }
}

impl DrainRefusal {
    // Document 01's number.
    pub fn number(self) -> u64
        ensures { result ≡ drain_number self }
    {
        match self {
            DrainRefusal::Merge(why) => why.number(),
            DrainRefusal::NotMatched => 14,
        }
    }
}
