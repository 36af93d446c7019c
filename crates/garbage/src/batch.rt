// A batch of dropped pointers, one lent list walked once: taken whole, or refused with its first refusal.
ghost use Rattle.std.specs.Prelude.{◌≡◌, Err, take, map};
ghost use Rattle.garbage.specs.Maps.{entries_of};
ghost use Rattle.garbage.specs.Drops.{one};
ghost use Rattle.garbage.specs.Batch.{in_turn, batch_of};
ghost use Rattle.garbage.specs.Columns.{held, Same, Ready, Ends};

use crate::dropped::{Dropped, one_of};
use crate::lent::{Lent, told};
use crate::map::{CountRefusal, FragmentationMap};
use numbers::handle::BlobIndirection;

impl<'a> Lent<'a> {
    // The pointers one after another, up to the first refusal.
    fn drop_each(&mut self, pointers: &[BlobIndirection]) -> Result<(), CountRefusal>
        requires { Ready (held self.old) }
        ensures same { Same self.old self.new }
        ensures ends { Ends (held self.old) (in_turn (map one pointers.now) (entries_of (held self.old))) result (held self.new) }
    {
        for p in pointers {
            self.add(one_of(*p))?;
        }
        Ok(())
    }
}

fn refused(m: FragmentationMap, why: CountRefusal) -> Dropped
    ensures { result ≡ record { answer = Err why; map = m } }
{
    Dropped {
        answer: Err(why),
        map: m,
    }
}

pub fn drop_all(m: FragmentationMap, pointers: &[BlobIndirection]) -> Dropped
    ensures { result ≡ batch_of m pointers.now }
{
    if !m.well_formed() {
        return refused(m, CountRefusal::MapFull);
    }
    told(m.ids, m.frames, m.stated, m.disk);
    let mut map = m;
    let mut lent = Lent {
        count: &mut map.count,
        ids: &mut map.ids,
        frames: &mut map.frames,
        stated: &mut map.stated,
        disk: &mut map.disk,
    };
    match lent.drop_each(pointers) {
        Ok(()) => Dropped {
            answer: Ok(()),
            map,
        },
        Err(why) => refused(m, why),
    }
}

// A batch for a caller with no slice to lend: the first `n` pointers of a list, or all that it has. docs/PROMISES.md and docs/LEDGER.md (G3)
// name it so, the list by value with a count.
pub fn drop_listed(m: FragmentationMap, list: [BlobIndirection; 1024], n: usize) -> Dropped
    ensures { result ≡ batch_of m (take n list) }
{
    drop_all(m, &list[..n.min(1024)])
}
