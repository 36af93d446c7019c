// The test of an entry's sum, over its key and value where they lie.
ghost use Rattle.std.specs.Prelude.{◌≡◌, ◌++◌};
ghost use Rattle.hash.specs.XXH3.{xxh3_128};
ghost use Rattle.frames.specs.Scan.{part_at, sum_at, checked_of};

use super::place::Place;
use super::steps::{Framed, ScanEntry, ScanRefusal, Scanned, Step};
use hash::{Hash128, xxh3_128, xxh3_128_joined};
use numbers::bytes::{lesser, part, room};

// The sum of two places' bytes, the first's and then the second's: where they lie together, in one part.
fn places_sum(file: &[u8], key: Place, value: Place) -> Hash128
    ensures { result ≡ xxh3_128 (part_at file.now key ++ part_at file.now value) }
{
    let at = key.at;
    let from = value.at;
    if at <= from && from - at == key.len {
        let n = lesser(value.len, room(file.len(), from));
        return xxh3_128(part(file, at, key.len + n));
    }
    xxh3_128_joined(part(file, at, key.len), part(file, from, value.len))
}

// The sum of an entry's key and value, where they lie in the file.
pub fn entry_sum(file: &[u8], entry: ScanEntry) -> Hash128
    ensures { result ≡ sum_at file.now entry }
{
    places_sum(file, entry.key, entry.value)
}

// A step's answer, once the sum of the entry that an unchecked step found is tested.
pub fn checked(file: &[u8], framed: Framed) -> Scanned
    ensures { result ≡ checked_of file.now framed }
{
    match framed {
        Step::End { at, next } => Step::End { at, next },
        Step::Refused(why, next) => Step::Refused(why.into(), next),
        Step::Entry(found, next) => {
            let entry = found.entry;
            let stored = found.stored;
            let computed = entry_sum(file, entry);
            if stored == computed {
                return Step::Entry(entry, next);
            }
            let at = entry.offset;
            Step::Refused(
                ScanRefusal::Mismatch {
                    at,
                    stored,
                    computed,
                },
                next,
            )
        }
    }
}
