// A dropped pointer counted in the map: over lent columns, and by value.
ghost use Rattle.std.specs.Prelude.{◌≡◌};
ghost use Rattle.garbage.specs.Maps.{map_at};
ghost use Rattle.garbage.specs.Drops.{dropped_of, one};

use crate::lent::Lent;
use crate::map::{CountRefusal, FragmentationEntry, FragmentationMap};
use numbers::handle::BlobIndirection;

// Refused, the map is as it came in.
#[derive(Clone, Copy, PartialEq, Eq)]
pub struct Dropped {
    pub answer: Result<(), CountRefusal>,
    pub map: FragmentationMap,
}

// One frame, dropped.
pub(crate) fn one_of(p: BlobIndirection) -> FragmentationEntry
    ensures { result ≡ one p }
{
    FragmentationEntry {
        id: p.handle.file,
        frames: 1,
        stated: p.stated as u64,
        disk: p.handle.size as u64,
    }
}

// A drop into any map whose count and columns are lent, apart, as C's `pd_drop` lends them.
pub fn drop_into(
    count: &mut usize,
    ids: &mut [u64; 64],
    frames: &mut [u32; 64],
    stated: &mut [u64; 64],
    disk: &mut [u64; 64],
    p: BlobIndirection,
) -> Result<(), CountRefusal>
    ensures { record { answer = result; map = map_at count.new ids.new frames.new stated.new disk.new }
        ≡ dropped_of (map_at count.old ids.old frames.old stated.old disk.old) p }
{
    let mut lent = Lent {
        count,
        ids,
        frames,
        stated,
        disk,
    };
    if lent.well_formed() {
        return lent.add_one(one_of(p));
    }
    Err(CountRefusal::MapFull)
}

impl FragmentationMap {
    // A drop where the map stands; refused, nothing changes.
    pub(crate) fn count_drop(&mut self, p: BlobIndirection) -> Result<(), CountRefusal>
        ensures { record { answer = result; map = self.new } ≡ dropped_of self.old p }
    {
        drop_into(
            &mut self.count,
            &mut self.ids,
            &mut self.frames,
            &mut self.stated,
            &mut self.disk,
            p,
        )
    }

    pub fn drop(self, p: BlobIndirection) -> Dropped
        ensures { result ≡ dropped_of self p }
    {
        let mut map = self;
        let answer = map.count_drop(p);
        Dropped { answer, map }
    }
}
