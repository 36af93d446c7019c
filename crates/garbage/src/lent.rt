// A map whose count and columns are lent: entries added and put in where they stand.
ghost use Rattle.std.specs.Prelude.{◌≡◌, ◌≤◌, ◌<◌, ◌+◌, true, take, length, MatchResult};
ghost use Rattle.garbage.specs.Entries.{judged, added};
ghost use Rattle.garbage.specs.Maps.{Columns, columns_of, map_of, entries_of, entry_at, holding, well_formed};
ghost use Rattle.garbage.specs.Drops.{answered};
ghost use Rattle.garbage.specs.Stored.{instead};
ghost use Rattle.garbage.specs.Columns.{held, Same, Told, Ready, Rising, Whole, rising_from, StandsAt, GoesTo, inserted_at, put_at, written, pushed};

use crate::ids::{in_order, place, place_by_count};
use crate::map::{CountRefusal, FragmentationEntry};

// Whoever lends a map takes it apart in place: of a method that returned the five references, no clause tells a caller what the map holds after
// them. Through `&mut self` a method could lay another reference in a field's place: `Same` says that none does. No ghost field holds `Whole` or
// `Ready`: a map is lent before its order is known, and each method asks for as much as it needs.
#[derive(Drop)]
pub(crate) struct Lent<'a> {
    pub(crate) count: &'a mut usize,
    pub(crate) ids: &'a mut [u64; 64],
    pub(crate) frames: &'a mut [u32; 64],
    pub(crate) stated: &'a mut [u64; 64],
    pub(crate) disk: &'a mut [u64; 64],
}

// What the arrays' types tell. A function of its own: of arrays in a struct the check does not tell that their numbers fit their types.
pub(crate) fn told(ids: [u64; 64], frames: [u32; 64], stated: [u64; 64], disk: [u64; 64])
    ensures { Told (record { ids = ids; frames = frames; stated = stated; disk = disk }) }
{}

// `x` put in at `i`, what stood there up to `n` moved on by one.
fn put_in<T: Copy>(column: &mut [T], n: usize, i: usize, x: T)
    requires { (i ≤ n) × (n < length column.old) }
    ensures { column.new ≡ inserted_at n i x column.old }
{
    let mut carried = x;
    // By the number: `rotate_right` asks the linker for a `memmove`, which an archive of these crates did without.
    for j in i..n + 1 {
        let there = column[j];
        column[j] = carried;
        carried = there;
    }
}

impl<'a> Lent<'a> {
    pub(crate) fn well_formed(&self) -> bool
        requires { Whole (columns_of (held self.now)) }
        ensures { result ≡ well_formed (held self.now) }
    {
        in_order(*self.count, &*self.ids)
    }

    fn place(&self, id: u64) -> Result<usize, usize>
        requires { Rising (held self.now) }
        ensures { MatchResult result (StandsAt id (take (held self.now).count (held self.now).ids)) (GoesTo id (take (held self.now).count (held self.now).ids)) }
    {
        place(&self.ids[..*self.count], id)
    }

    // Slot `i` overwritten.
    fn write(&mut self, i: usize, e: FragmentationEntry)
        requires { i < 64 }
        ensures same { Same self.old self.new }
        ensures is { held self.new ≡ written i (held self.old) e }
    {
        self.ids[i] = e.id;
        self.frames[i] = e.frames;
        self.stated[i] = e.stated;
        self.disk[i] = e.disk;
    }

    // A new entry put in at slot `i`.
    fn insert(&mut self, i: usize, e: FragmentationEntry)
        requires { ((held self.old).count < 64) × (i ≤ (held self.old).count) × Whole (columns_of (held self.old)) }
        ensures same { Same self.old self.new }
        ensures is { held self.new ≡ put_at i (held self.old) e }
    {
        let n = *self.count;
        put_in(&mut self.ids[..], n, i, e.id);
        put_in(&mut self.frames[..], n, i, e.frames);
        put_in(&mut self.stated[..], n, i, e.stated);
        put_in(&mut self.disk[..], n, i, e.disk);
        *self.count = n + 1;
    }

    // An entry past those that are there.
    pub(crate) fn push(&mut self, e: FragmentationEntry)
        requires { (held self.old).count < 64 }
        ensures same { Same self.old self.new }
        ensures is { held self.new ≡ pushed (held self.old) e }
    {
        self.write(*self.count, e);
        *self.count += 1;
    }

    // The totals of `e` added to those at slot `i`.
    fn grow(&mut self, i: usize, e: FragmentationEntry) -> Result<(), CountRefusal>
        requires { Ready (held self.old) × StandsAt e.id (take (held self.old).count (held self.old).ids) i }
        ensures same { Same self.old self.new }
        ensures is { record { answer = result; map = held self.new } ≡ answered (held self.old) (judged (added e (entries_of (held self.old)))) }
    {
        // As in the map's `entry`: a function for both would be handed the four columns one by one, as they stand here.
        let there = FragmentationEntry {
            id: self.ids[i],
            frames: self.frames[i],
            stated: self.stated[i],
            disk: self.disk[i],
        };
        match there.plus(e) {
            Some(sum) => {
                self.write(i, sum);
                Ok(())
            }
            None => Err(CountRefusal::SumTooBig),
        }
    }

    // An entry added to a well-formed map; refused, nothing changes.
    pub(crate) fn add(&mut self, e: FragmentationEntry) -> Result<(), CountRefusal>
        requires { Ready (held self.old) }
        ensures same { Same self.old self.new }
        ensures is { record { answer = result; map = held self.new } ≡ answered (held self.old) (judged (added e (entries_of (held self.old)))) }
    {
        let place = self.place(e.id);
        self.add_at(place, e)
    }

    // The same of one entry alone.
    pub(crate) fn add_one(&mut self, e: FragmentationEntry) -> Result<(), CountRefusal>
        requires { Ready (held self.old) }
        ensures same { Same self.old self.new }
        ensures is { record { answer = result; map = held self.new } ≡ answered (held self.old) (judged (added e (entries_of (held self.old)))) }
    {
        let place = place_by_count(&self.ids[..*self.count], e.id);
        self.add_at(place, e)
    }

    // The same at the place of its id.
    fn add_at(
        &mut self,
        place: Result<usize, usize>,
        e: FragmentationEntry,
    ) -> Result<(), CountRefusal>
        requires ready { Ready (held self.old) }
        requires place { MatchResult place (StandsAt e.id (take (held self.old).count (held self.old).ids)) (GoesTo e.id (take (held self.old).count (held self.old).ids)) }
        ensures same { Same self.old self.new }
        ensures is { record { answer = result; map = held self.new } ≡ answered (held self.old) (judged (added e (entries_of (held self.old)))) }
    {
        match place {
            Ok(i) => self.grow(i, e),
            Err(i) => {
                if *self.count == 64 {
                    return Err(CountRefusal::MapFull);
                }
                self.insert(i, e);
                Ok(())
            }
        }
    }

    // An entry put instead of the one of its id.
    pub(crate) fn replace(&mut self, e: FragmentationEntry)
        requires { ((held self.old).count < 64) × Rising (held self.old) }
        ensures same { Same self.old self.new }
        ensures is { held self.new ≡ holding (held self.old) (instead e (entries_of (held self.old))) }
    {
        match self.place(e.id) {
            Ok(i) => self.write(i, e),
            Err(i) => self.insert(i, e),
        }
    }
}
