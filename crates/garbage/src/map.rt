// The map by value: at most 64 file ids, ascending, in four columns.
ghost use Rattle.std.specs.Prelude.{◌≡◌, ◌<◌, true, false, Some, None, Option, MatchResult};
ghost use Rattle.numbers.specs.Pick.{pick};
ghost use Rattle.garbage.specs.Entries.{plus, fits};
ghost use Rattle.garbage.specs.Maps.{columns_of, empty_map, entry_at, well_formed};
ghost use Rattle.garbage.specs.Lookups.{lookup_of};
ghost use Rattle.garbage.specs.Refusals.{count_number, full_number, lookup_number};
ghost use Rattle.garbage.specs.declared.map.CountRefusal.TheVariants as refusal;

use crate::ids::{in_order, place};

// What was dropped of one file: frames, stated bytes, on-disk value bytes.
#[derive(Clone, Copy, PartialEq, Eq)]
pub struct FragmentationEntry {
    pub id: u64,
    pub frames: u32,
    pub stated: u64,
    pub disk: u64,
}

// Four columns and a count in fixed memory, as C lends them. One with a count above 64, or with ids that do not ascend, can come in: it is malformed.
#[derive(Clone, Copy, PartialEq, Eq)]
pub struct FragmentationMap {
    pub count: usize,
    pub ids: [u64; 64],
    pub frames: [u32; 64],
    pub stated: [u64; 64],
    pub disk: [u64; 64],
}

// The map is malformed.
#[derive(Clone, Copy, PartialEq, Eq)]
pub struct MapFull;

// Why nothing was added up: the map is malformed or would hold more than 64 ids, or a total would pass its width.
#[derive(Clone, Copy, PartialEq, Eq)]
pub enum CountRefusal {
    MapFull,
    SumTooBig,
}

impl MapFull {
    // Document 01's number.
    pub fn number(self) -> u64
        ensures { result ≡ full_number self }
    {
        11
    }
}

impl CountRefusal {
    // Document 01's number.
    pub fn number(self) -> u64
        ensures { result ≡ count_number self }
    {
        match self {
            CountRefusal::MapFull => 11,
            CountRefusal::SumTooBig => 12,
        }
    }
}

// Document 01's number of a look-up's answer; 0 where nothing is refused.
pub fn lookup_number(answer: Result<Option<FragmentationEntry>, MapFull>) -> u64
    ensures { result ≡ lookup_number answer }
{
    match answer {
        Ok(Some(_)) => 0,
        Ok(None) => 0,
        Err(why) => why.number(),
    }
}

impl From<MapFull> for CountRefusal {
    ghost from_gives = { λ why e. e ≡ refusal.MapFull };

    fn from(_why: MapFull) -> CountRefusal {
        CountRefusal::MapFull
    }
}

impl FragmentationEntry {
    // The totals of two entries of one id, where none passes its width.
    pub(crate) fn plus(self, e: FragmentationEntry) -> Option<FragmentationEntry>
        ensures { result ≡ pick (fits (plus self e)) (Some (plus self e)) None }
    {
        Some(FragmentationEntry {
            id: self.id,
            frames: self.frames.checked_add(e.frames)?,
            stated: self.stated.checked_add(e.stated)?,
            disk: self.disk.checked_add(e.disk)?,
        })
    }
}

impl FragmentationMap {
    pub fn new() -> Self
        ensures { result ≡ empty_map }
    {
        Self {
            count: 0,
            ids: [0; 64],
            frames: [0; 64],
            stated: [0; 64],
            disk: [0; 64],
        }
    }

    pub(crate) fn well_formed(&self) -> bool
        ensures { result ≡ well_formed self.now }
    {
        in_order(self.count, &self.ids)
    }

    // What comes before all else in every call: one that hands the map back asks `well_formed`, and refuses with the map.
    pub(crate) fn sound(&self) -> Result<(), MapFull>
        ensures { MatchResult result (λ _. well_formed self.now ≡ true) (λ _. well_formed self.now ≡ false) }
    {
        if self.well_formed() {
            return Ok(());
        }
        Err(MapFull)
    }

    // The entry at slot `i`. A walk over entries counts slots: the four columns have no iterator of entries.
    pub(crate) fn entry(&self, i: usize) -> FragmentationEntry
        requires { i < 64 }
        ensures { result ≡ entry_at (columns_of self.now) i }
    {
        FragmentationEntry {
            id: self.ids[i],
            frames: self.frames[i],
            stated: self.stated[i],
            disk: self.disk[i],
        }
    }

    // What the map holds of an id.
    pub fn get(self, id: u64) -> Result<Option<FragmentationEntry>, MapFull>
        ensures { result ≡ lookup_of self id }
    {
        self.sound()?;
        match place(&self.ids[..self.count], id) {
            Ok(i) => Ok(Some(self.entry(i))),
            Err(_) => Ok(None),
        }
    }
}
