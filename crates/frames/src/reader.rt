// The point read: a value's part of the file, found by a handle.
ghost use Rattle.std.specs.Prelude.{◌≡◌, ◌+◌, ◌≤◌, length};
ghost use Rattle.frames.specs.Layout.{header_length};
ghost use Rattle.frames.specs.Point.{told_by, taken_sum, found_of, read_of, shown, value_in};

use super::cut::{enough, has};
use super::header::{BLOB, BLOB_HEADER_LEN, marked, read_header};
use super::place::Place;
use super::scanner::ScanRefusal;
use hash::{Hash128, xxh3_128, xxh3_128_joined};
use numbers::bytes::{part, tail};
use numbers::cut::CutShort;
use numbers::handle::ValueHandle;

// What a read found: the refusal's number, or 0; where the value lies; both sums, of a frame that was hashed; and, for 7, what was cut short.
// Document 01's form: a struct of numbers, told beside the part.
#[derive(Clone, Copy, PartialEq, Eq)]
pub struct Told {
    pub number: u64,
    pub value: Place,
    pub stored: Hash128,
    pub computed: Hash128,
    pub cut: CutShort,
}

// A value: where it lies, and its frame's sum.
#[derive(Clone, Copy)]
struct Found {
    value: Place,
    sum: Hash128,
}

// What was not found, not hashed and not cut short.
const NO_PLACE: Place = Place { at: 0, len: 0 };

const NO_SUM: Hash128 = Hash128 { low: 0, high: 0 };

const NO_CUT: CutShort = CutShort {
    at: 0,
    needed: 0,
    present: 0,
};

impl Told {
    fn of(read: Result<Found, ScanRefusal>) -> Told
        ensures { result ≡ told_by read }
    {
        match read {
            Ok(found) => Told {
                number: 0,
                value: found.value,
                stored: found.sum,
                computed: found.sum,
                cut: NO_CUT,
            },
            Err(why) => {
                let refused = Told {
                    number: why.number(),
                    value: NO_PLACE,
                    stored: NO_SUM,
                    computed: NO_SUM,
                    cut: NO_CUT,
                };
                match why {
                    ScanRefusal::CutShort(cut) => Told { cut, ..refused },
                    ScanRefusal::InvalidHeader { at: _ } => refused,
                    ScanRefusal::Mismatch {
                        at: _,
                        stored,
                        computed,
                    } => Told {
                        stored,
                        computed,
                        ..refused
                    },
                }
            }
        }
    }
}

// The sum over the header's key, hk bytes, and what stands past the given key's length; in one part where the two lengths are the same.
fn taken_sum(t: &[u8], hk: usize, k: usize) -> Hash128
    requires { header_length + k ≤ length t.now }
    ensures { result ≡ taken_sum t.now hk k }
{
    if hk == k {
        return xxh3_128(tail(t, BLOB_HEADER_LEN));
    }
    xxh3_128_joined(part(t, BLOB_HEADER_LEN, hk), tail(t, BLOB_HEADER_LEN + k))
}

// A handle's value. Of the key its length counts, and the header's key is hashed.
fn find(file: &[u8], key: &[u8], handle: ValueHandle) -> Result<Found, ScanRefusal>
    ensures { result ≡ found_of file.now (length key.now) handle }
{
    let k = key.len();
    let at = handle.offset as usize;
    let size = handle.size as usize;
    let needed = BLOB_HEADER_LEN + k + size;
    has(file, at, needed)?;
    let taken = part(file, at, needed);
    if !marked(taken, BLOB) {
        return Err(ScanRefusal::InvalidHeader { at });
    }
    let header = read_header(taken);
    let hk = header.key as usize;
    enough(at + BLOB_HEADER_LEN, hk, k + size)?;
    let stored = header.sum;
    let computed = taken_sum(taken, hk, k);
    if stored != computed {
        return Err(ScanRefusal::Mismatch {
            at,
            stored,
            computed,
        });
    }
    let value = Place {
        at: at + BLOB_HEADER_LEN + k,
        len: size,
    };
    Ok(Found { value, sum: stored })
}

// What reading a handle's value finds. The handle's file id is not looked at: which file it names is the caller's to know.
pub fn look(file: &[u8], key: &[u8], handle: ValueHandle) -> Told
    ensures { result ≡ read_of file.now key.now handle }
{
    Told::of(find(file, key, handle))
}

// The value that a look told of, as a part of the file; empty where it was refused.
pub fn value<'a>(file: &'a [u8], told: Told) -> &'a [u8]
    ensures { shown result ≡ value_in file.entry told }
{
    let v = told.value;
    part(file, v.at, v.len)
}

// The point read: the value's part of the file, with what was found told beside it.
pub fn read<'a, 'b, 'c>(
    file: &'a [u8],
    key: &'b [u8],
    handle: ValueHandle,
    told: &'c mut Told,
) -> &'a [u8]
    ensures value { shown result ≡ value_in file.entry (read_of file.now key.now handle) }
    ensures told { told.new ≡ read_of file.now key.now handle }
{
    *told = look(file, key, handle);
    value(file, *told)
}
