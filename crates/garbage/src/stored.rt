// The stored form: a count, then 28 bytes for each entry.
ghost use Rattle.std.specs.Prelude.{◌≡◌, ◌+◌, ◌*◌, ◌<◌, ◌≤◌, length, drop, [], MatchResult};
ghost use Rattle.std.proofs.lemmas.List.Edits.{sets};
ghost use Rattle.garbage.specs.Maps.{columns_of, empty_map, entries_of, map_at, holding};
ghost use Rattle.garbage.specs.Columns.{held, Same, Whole};
ghost use Rattle.garbage.specs.Refusals.{store_number, load_number};
ghost use Rattle.garbage.specs.Stored.{entry_bytes, entries_bytes, entry_in, entries_in, instead_all, store_answer, store_bytes, stored_count, load_of};
ghost use Rattle.garbage.specs.declared.stored.LoadRefusal.TheVariants as load;

use crate::ids::in_order;
use crate::lent::Lent;
use crate::map::{FragmentationEntry, FragmentationMap};
use numbers::cut::CutShort;
use numbers::{get, put};

#[derive(Clone, Copy, PartialEq, Eq)]
pub enum StoreRefusal {
    MapFull,
    NoRoom,
}

#[derive(Clone, Copy, PartialEq, Eq)]
pub enum LoadRefusal {
    CutShort(CutShort),
    MapFull,
}

// The map that was read, and the bytes it took; refused, an empty one.
#[derive(Clone, Copy, PartialEq, Eq)]
pub struct Loaded {
    pub answer: Result<usize, LoadRefusal>,
    pub map: FragmentationMap,
}

impl StoreRefusal {
    // Document 01's number.
    pub fn number(self) -> u64
        ensures { result ≡ store_number self }
    {
        match self {
            StoreRefusal::MapFull => 11,
            StoreRefusal::NoRoom => 3,
        }
    }
}

impl LoadRefusal {
    // Document 01's number.
    pub fn number(self) -> u64
        ensures { result ≡ load_number self }
    {
        match self {
            LoadRefusal::CutShort(_) => 7,
            LoadRefusal::MapFull => 11,
        }
    }
}

fn put_entry(buf: &mut [u8], at: usize, e: FragmentationEntry)
    requires { at + 28 ≤ length buf.old }
    ensures { buf.new ≡ sets buf.old at (entry_bytes e) }
{
    let place = &mut buf[at..at + 28];
    put(place, 0, e.id);
    put(place, 8, e.frames);
    put(place, 12, e.stated);
    put(place, 20, e.disk);
}

fn get_entry(s: &[u8], at: usize) -> FragmentationEntry
    requires { at + 28 ≤ length s.now }
    ensures { result ≡ entry_in (drop at s.now) }
{
    FragmentationEntry {
        id: get(s, at),
        frames: get(s, at + 8),
        stated: get(s, at + 12),
        disk: get(s, at + 20),
    }
}

// The first `n` entries, from 4 on, of columns lent apart: C's `pd_store` has no map, of which `entry` would tell one.
fn put_entries(
    n: usize,
    ids: &[u64; 64],
    frames: &[u32; 64],
    stated: &[u64; 64],
    disk: &[u64; 64],
    buf: &mut [u8],
)
    requires { (n ≤ 64) × (4 + 28 * n ≤ length buf.old) }
    ensures { buf.new
        ≡ sets buf.old 4 (entries_bytes (entries_of (map_at n ids.now frames.now stated.now disk.now))) }
{
    for i in 0..n {
        let e = FragmentationEntry {
            id: ids[i],
            frames: frames[i],
            stated: stated[i],
            disk: disk[i],
        };
        put_entry(buf, 4 + 28 * i, e);
    }
}

// The stored form of any map whose columns are lent, apart, as C's `pd_store` lends them, at the front of `buf`: the bytes used.
pub fn store_columns<'a>(
    count: usize,
    ids: &'a [u64; 64],
    frames: &'a [u32; 64],
    stated: &'a [u64; 64],
    disk: &'a [u64; 64],
    buf: &mut [u8],
) -> Result<usize, StoreRefusal>
    ensures { (result ≡ store_answer (map_at count ids.now frames.now stated.now disk.now) buf.old)
        × (buf.new ≡ store_bytes (map_at count ids.now frames.now stated.now disk.now) buf.old) }
{
    if !in_order(count, ids) {
        return Err(StoreRefusal::MapFull);
    }
    let need = 4 + 28 * count;
    if buf.len() < need {
        return Err(StoreRefusal::NoRoom);
    }
    put(buf, 0, count as u32);
    put_entries(count, ids, frames, stated, disk, buf);
    Ok(need)
}

// Of the bytes from `at` on, `present` are there. As frames' own: one for both would be a public call of numbers, with a promise of its own, and a `From` here.
fn enough(at: usize, needed: usize, present: usize) -> Result<(), LoadRefusal>
    ensures { MatchResult result (λ _. needed ≤ present)
        (λ why. (present < needed) × (why ≡ load.CutShort (record { at = at; needed = needed; present = present }))) }
{
    if present < needed {
        return Err(LoadRefusal::CutShort(CutShort {
            at,
            needed,
            present,
        }));
    }
    Ok(())
}

// How many entries stand after the count, which are all there.
fn stored_count(s: &[u8]) -> Result<usize, LoadRefusal>
    ensures { result ≡ stored_count s.now }
{
    enough(0, 4, s.len())?;
    let count = get::<u32>(s, 0) as usize;
    if 64 < count {
        return Err(LoadRefusal::MapFull);
    }
    enough(4, 28 * count, s.len() - 4)?;
    Ok(count)
}

impl<'a> Lent<'a> {
    // The `k` entries that stand from 4 on, each where put_entries puts it. Pieces of `chunks_exact` would need their end, too, and an entry read
    // at 0 of each.
    fn read(&mut self, s: &[u8], k: usize)
        requires { (k ≤ 64) × (4 + 28 * k ≤ length s.now) × Whole (columns_of (held self.old)) × ((held self.old).count ≡ 0) }
        ensures same { Same self.old self.new }
        ensures is { held self.new ≡ holding (held self.old) (instead_all (entries_in k (drop 4 s.now)) []) }
    {
        for i in 0..k {
            self.replace(get_entry(s, 4 + 28 * i));
        }
    }
}

impl FragmentationMap {
    // At the front of `buf`: the bytes used.
    pub fn store(self, buf: &mut [u8]) -> Result<usize, StoreRefusal>
        ensures { (result ≡ store_answer self buf.old) × (buf.new ≡ store_bytes self buf.old) }
    {
        store_columns(
            self.count,
            &self.ids,
            &self.frames,
            &self.stated,
            &self.disk,
            buf,
        )
    }

    // A stored map read into an empty one; refused, it stays empty.
    fn read_stored(&mut self, s: &[u8]) -> Result<usize, LoadRefusal>
        requires { self.old ≡ empty_map }
        ensures { record { answer = result; map = self.new } ≡ load_of s.now }
    {
        let count = stored_count(s)?;
        Lent {
            count: &mut self.count,
            ids: &mut self.ids,
            frames: &mut self.frames,
            stated: &mut self.stated,
            disk: &mut self.disk,
        }
        .read(s, count);
        Ok(4 + 28 * count)
    }

    // From the front of `s`; what follows is left.
    pub fn load(s: &[u8]) -> Loaded
        ensures { result ≡ load_of s.now }
    {
        let mut map = FragmentationMap::new();
        let answer = map.read_stored(s);
        Loaded { answer, map }
    }
}
