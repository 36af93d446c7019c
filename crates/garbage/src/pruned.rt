// A map pruned to listed ids, and the sum of its on-disk bytes.
ghost use Rattle.std.specs.Prelude.{◌≡◌, ◌≤◌};
ghost use Rattle.garbage.specs.Maps.{Columns, columns_of, entries_of, map_of, holding};
ghost use Rattle.garbage.specs.Columns.{held, Same, Whole};
ghost use Rattle.garbage.specs.Merges.{kept_of, pruned_of, stale_bytes_of};
ghost use Rattle.garbage.specs.Refusals.{prune_number};

use crate::lent::Lent;
use crate::map::{CountRefusal, FragmentationMap, MapFull};

// Refused, the map is as it came in.
#[derive(Clone, Copy, PartialEq, Eq)]
pub struct Pruned {
    pub answer: Result<(), MapFull>,
    pub map: FragmentationMap,
}

// Document 01's number of a prune's answer; 0 where nothing is refused.
pub fn prune_number(answer: Result<(), MapFull>) -> u64
    ensures { result ≡ prune_number answer }
{
    match answer {
        Ok(()) => 0,
        Err(why) => why.number(),
    }
}

impl<'a> Lent<'a> {
    // The entries of listed ids, from a map in whose columns they may stand.
    fn keep(&mut self, map: &FragmentationMap, listing: &[u64])
        requires { (map.now.count ≤ 64) × Whole (columns_of map.now) × (held self.old ≡ map_of 0 (columns_of map.now)) }
        ensures same { Same self.old self.new }
        ensures is { held self.new ≡ holding map.now (kept_of listing.now (entries_of map.now)) }
    {
        for i in 0..map.count {
            let e = map.entry(i);
            if listing.contains(&e.id) {
                self.push(e);
            }
        }
    }
}

impl FragmentationMap {
    pub fn prune(self, listing: &[u64]) -> Pruned
        ensures { result ≡ pruned_of self listing.now }
    {
        if !self.well_formed() {
            return Pruned {
                answer: Err(MapFull),
                map: self,
            };
        }
        let mut map = self;
        map.count = 0;
        Lent {
            count: &mut map.count,
            ids: &mut map.ids,
            frames: &mut map.frames,
            stated: &mut map.stated,
            disk: &mut map.disk,
        }
        .keep(&self, listing);
        Pruned {
            answer: Ok(()),
            map,
        }
    }

    // The bytes that could be freed from disk.
    pub fn stale_bytes(self) -> Result<u64, CountRefusal>
        ensures { result ≡ stale_bytes_of self }
    {
        self.sound()?;
        let mut total: u64 = 0;
        for bytes in &self.disk[..self.count] {
            total = total.checked_add(*bytes).ok_or(CountRefusal::SumTooBig)?;
        }
        Ok(total)
    }
}
