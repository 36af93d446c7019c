// Rows of three numbers as the pointers that they are: file, on-disk size, stated length.
ghost use Rattle.std.specs.Prelude.{◌≡◌, ◌≤◌, length, Ok, Err, MatchResult};
ghost use Rattle.numbers.specs.Pick.{pick};
ghost use Rattle.boundary.specs.declared.pointers.ListRefusal.TheVariants.{TooLong};
ghost use Rattle.boundary.specs.Pointers.{pointer_of, narrow, pointer_at, rows_of, pointers_of, list_number};

use numbers::handle::{BlobIndirection, ValueHandle};
use std::num::TryFromIntError;

// A dropped pointer; where its frame lay is not looked at.
pub(crate) fn pointer(file: u64, size: u32, stated: u32) -> BlobIndirection
    ensures { result ≡ pointer_of file size stated }
{
    let handle = ValueHandle {
        offset: 0,
        file,
        size,
    };
    BlobIndirection { handle, stated }
}

// Why numbers are no list of pointers: a row is cut short, more rows than the list has room for, a length over its 32 bits.
#[derive(Clone, Copy)]
pub(crate) enum ListRefusal {
    CutShort,
    NoRoom,
    TooLong,
}

impl ListRefusal {
    // Document 01's number.
    pub(crate) fn number(self) -> u64
        ensures { result ≡ list_number self }
    {
        match self {
            ListRefusal::CutShort => 7,
            ListRefusal::NoRoom => 3,
            ListRefusal::TooLong => 10,
        }
    }
}

impl From<TryFromIntError> for ListRefusal {
    ghost from_gives = { λ _ r. r ≡ TooLong };

    fn from(_: TryFromIntError) -> ListRefusal {
        ListRefusal::TooLong
    }
}

// The pointer that a row is: file, on-disk size, stated length.
#[tactic(auto, unfolding(numbers::specs::Pick::pick))]
fn pointer_at(row: [u64; 3]) -> Result<BlobIndirection, ListRefusal>
    ensures { result ≡ pick (narrow row) (Ok (pointer_at row)) (Err TooLong) }
{
    let [file, size, stated] = row;
    Ok(pointer(file, u32::try_from(size)?, u32::try_from(stated)?))
}

// The rows of three numbers, no more than the list has room for.
#[tactic(auto, unfolding(crate::specs::Pointers::rows_of, numbers::specs::Pick::pick))]
pub(crate) fn rows_in(numbers: &[u64]) -> Result<&[[u64; 3]], ListRefusal>
    ensures answer { MatchResult result (λ rows. rows_of numbers.now ≡ Ok rows.now) (λ why. rows_of numbers.now ≡ Err why) }
    ensures room { MatchResult result (λ rows. length rows.now ≤ 1024) (λ why. Unit) }
{
    let (rows, rest) = numbers.as_chunks::<3>();
    if !rest.is_empty() {
        return Err(ListRefusal::CutShort);
    }
    if 1024 < rows.len() {
        return Err(ListRefusal::NoRoom);
    }
    Ok(rows)
}

// The pointers that rows are, laid down in the list: at indices, as of `list.iter_mut().zip(rows)` the proof learns nothing of what the places hold
// afterwards.
#[tactic(auto, unfolding(crate::specs::Pointers::pointers_of, numbers::specs::Pick::pick))]
pub(crate) fn pointers_in<'a>(
    list: &'a mut [BlobIndirection; 1024],
    rows: &[[u64; 3]],
) -> Result<&'a [BlobIndirection], ListRefusal>
    requires { length rows.now ≤ 1024 }
    ensures { MatchResult result (λ ps. pointers_of rows.now ≡ Ok ps.now) (λ why. pointers_of rows.now ≡ Err why) }
{
    for (i, row) in rows.iter().enumerate() {
        list[i] = pointer_at(*row)?;
    }
    Ok(&list[..rows.len()])
}
