// The merge's second form: rows of nine numbers, several at a time, held against the single answers.
use merge::heads::MergeEntry;
use merge::next::Merged;
use merge::parts::MergeScanner;
use merge::refusals::RowsRefusal;

// An entry's numbers, as a row has them.
fn row_of(e: MergeEntry) -> [u64; 9] {
    [
        e.part as u64,
        e.file,
        e.offset as u64,
        e.key.at as u64,
        e.key.len as u64,
        e.seqno,
        e.stated as u64,
        e.value.at as u64,
        e.value.len as u64,
    ]
}

// The state after the single answers, where they are the rows.
fn stepped(image: &[u8], from: MergeScanner, rows: &[u64], n: usize) -> Option<MergeScanner> {
    let mut one = from;
    for row in rows.chunks_exact(9).take(n) {
        let merged = one.next(image);
        let Ok(Some(e)) = merged.answer else {
            return None;
        };
        if row != row_of(e).as_slice() {
            return None;
        }
        one = merged.state;
    }
    Some(one)
}

// Whether both forms give the same to the end. Sixteen parts of a batch's bytes give fewer than a million rows.
pub fn agree(image: &[u8], scanner: MergeScanner) -> bool {
    let mut state = scanner;
    for _ in 0..1_000_000 {
        let mut rows = [0; 40];
        let rowed = state.next_rows(image, &mut rows);
        let answer = match rowed.answer {
            Ok(Some(n)) => {
                if stepped(image, state, &rows, n) != Some(rowed.state) {
                    return false;
                }
                state = rowed.state;
                continue;
            }
            Ok(None) => Ok(None),
            Err(RowsRefusal::Merge(why)) => Err(why),
            Err(RowsRefusal::NoRoom) => return false,
        };
        let single = Merged {
            state: rowed.state,
            answer,
        };
        return state.next(image) == single;
    }
    true
}
