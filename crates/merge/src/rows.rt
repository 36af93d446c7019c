// The merge in one pass: entries as rows of nine numbers.
ghost use Rattle.std.specs.Prelude.{◌≡◌, ◌+◌, ◌≤◌, length, is_some, unwrap_or};
ghost use Rattle.std.proofs.lemmas.List.Edits.{sets};
ghost use Rattle.merge.specs.Rows.{row_of, rows_said, Wrote, rowed_of, rowed_in};

use super::heads::{Head, MergeEntry};
use super::parts::MergeScanner;
use super::pass::Pass;
use super::refusals::MergeRefusal;
pub use super::refusals::RowsRefusal;

// How many rows were written, or none at the end; or the refusal that stands before the first.
#[derive(Clone, Copy, PartialEq, Eq)]
pub struct Rowed {
    pub state: MergeScanner,
    pub answer: Result<Option<usize>, RowsRefusal>,
}

// Nine stores: an array copied over takes 30 instructions more an entry (977 and not 947, in builds that are alike but for it).
fn put_row(rows: &mut [u64], at: usize, x: MergeEntry)
    requires { at + 9 ≤ length rows.old }
    ensures { rows.new ≡ sets rows.old at (row_of x) }
{
    rows[at] = x.part as u64;
    rows[at + 1] = x.file;
    rows[at + 2] = x.offset as u64;
    rows[at + 3] = x.key.at as u64;
    rows[at + 4] = x.key.len as u64;
    rows[at + 5] = x.seqno;
    rows[at + 6] = x.stated as u64;
    rows[at + 7] = x.value.at as u64;
    rows[at + 8] = x.value.len as u64;
}

// What is told of the rows written, none where no row fits, where that goes first before them.
fn told(
    first: Result<Option<Head>, MergeRefusal>,
    written: Option<usize>,
) -> Result<Option<usize>, RowsRefusal>
    ensures { result ≡ rows_said first (is_some written) (unwrap_or written 0) }
{
    match (first?, written) {
        (Some(_), Some(n)) => Ok(Some(n)),
        (Some(_), None) => Err(RowsRefusal::NoRoom),
        (None, _) => Ok(None),
    }
}

// Rows until no whole row is left, or the end or a refusal is next: how many.
fn write(pass: &mut Pass, rows: &mut [u64]) -> usize
    ensures image { pass.new.image ≡ pass.old.image }
    ensures wrote { Wrote pass.old.image.now pass.old.state rows.old pass.new.state rows.new result }
{
    let whole = rows.len() / 9;
    // By the row's number, which is the answer wherever the loop ends.
    for done in 0..whole {
        let Ok(Some(first)) = pass.front() else {
            return done;
        };
        put_row(rows, 9 * done, first.entry);
        pass.take(first);
    }
    whole
}

impl MergeScanner {
    // A row is nine numbers: part, file id, offset, the key's place and length, seqno, stated length, the value's place and length.
    pub fn next_rows(self, image: &[u8], rows: &mut [u64]) -> Rowed
        ensures answer { result ≡ rowed_of self image.now rows.old }
        ensures numbers { rows.new ≡ rowed_in self image.now rows.old }
    {
        if !self.fits(image.len()) {
            return Rowed {
                state: self,
                answer: Err(RowsRefusal::Merge(MergeRefusal::BadPart)),
            };
        }
        let mut pass = Pass::begin(image, self);
        let first = pass.front();
        let fits = 9 <= rows.len();
        let n = write(&mut pass, rows);
        Rowed {
            state: pass.state,
            answer: told(first, fits.then_some(n)),
        }
    }
}
