// The merge in one pass. Count and columns are five parameters, as C lends them.
ghost use Rattle.std.specs.Prelude.{◌≡◌, ◌<◌};
ghost use Rattle.merge.specs.Rows.{rowed_of, rowed_in};
ghost use Rattle.boundary.specs.Tables.{table_of, ats_of, rowed_number};

use super::count::counted;
use merge::parts::{MergeScanner, Part};
use merge::refusals::RowsRefusal;
use std::array;

// A merge of the first `count` of the parts that columns are.
fn table_of(
    count: usize,
    starts: &[u64; 16],
    lengths: &[u64; 16],
    files: &[u64; 16],
    ats: &[u64; 16],
) -> MergeScanner
    ensures { result ≡ table_of count starts.now lengths.now files.now ats.now }
{
    let parts = array::from_fn(|i| Part {
        start: starts[i] as usize,
        length: lengths[i] as usize,
        file: files[i],
        at: ats[i] as usize,
    });
    MergeScanner { count, parts }
}

// The positions of the parts.
fn ats_of(parts: [Part; 16]) -> [u64; 16]
    ensures { result ≡ ats_of parts }
{
    parts.map(|part| part.at as u64)
}

// How many rows, none at the end; refused, document 01's number below zero.
fn number_of(answer: Result<Option<usize>, RowsRefusal>) -> u64
    ensures { result ≡ rowed_number answer }
{
    let count = answer.map(|rows| rows.unwrap_or(0));
    counted(count.map_err(|why| why.number()))
}

// The parts are columns; the positions among them move on.
#[unsafe(no_mangle)]
pub extern "C" fn pd_rows(
    count: usize,
    starts: &[u64; 16],
    lengths: &[u64; 16],
    files: &[u64; 16],
    ats: &mut [u64; 16],
    image: &[u8],
    rows: &mut [u64],
) -> u64
    ensures number { result ≡ rowed_number (rowed_of (table_of count starts.now lengths.now files.now ats.old) image.now rows.old).answer }
    ensures places { ats.new ≡ ats_of (rowed_of (table_of count starts.now lengths.now files.now ats.old) image.now rows.old).state.parts }
    ensures rows { rows.new ≡ rowed_in (table_of count starts.now lengths.now files.now ats.old) image.now rows.old }
{
    let rowed = table_of(count, starts, lengths, files, ats).next_rows(image, rows);
    *ats = ats_of(rowed.state.parts);
    number_of(rowed.answer)
}
