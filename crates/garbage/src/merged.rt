// Maps added up, one into another.
ghost use Rattle.std.specs.Prelude.{◌≡◌, true, ◌≤◌, Err};
ghost use Rattle.garbage.specs.Entries.{plus, fits, added_all, judged};
ghost use Rattle.garbage.specs.Maps.{entries_of, well_formed};
ghost use Rattle.garbage.specs.Batch.{in_turn};
ghost use Rattle.garbage.specs.Columns.{held, Same, Ready, Ends, total_of, sums_fit};
ghost use Rattle.garbage.specs.Merges.{merged_of};

use crate::ids::place;
use crate::lent::{Lent, told};
use crate::map::{CountRefusal, FragmentationEntry, FragmentationMap};

// The target holds the totals of both and the source is empty; refused, both are as they came in.
#[derive(Clone, Copy, PartialEq, Eq)]
pub struct Merged {
    pub answer: Result<(), CountRefusal>,
    pub source: FragmentationMap,
    pub target: FragmentationMap,
}

impl<'a> Lent<'a> {
    // The entries one after another, up to the first refusal.
    fn add_each(&mut self, source: &FragmentationMap) -> Result<(), CountRefusal>
        requires { (source.now.count ≤ 64) × Ready (held self.old) }
        ensures same { Same self.old self.new }
        ensures ends { Ends (held self.old) (in_turn (entries_of source.now) (entries_of (held self.old))) result (held self.new) }
    {
        for i in 0..source.count {
            self.add(source.entry(i))?;
        }
        Ok(())
    }
}

fn refused(source: FragmentationMap, target: FragmentationMap, why: CountRefusal) -> Merged
    ensures { result ≡ record { answer = Err why; source = source; target = target } }
{
    Merged {
        answer: Err(why),
        source,
        target,
    }
}

impl FragmentationMap {
    // Whether the totals of `e` fit on those held of its id.
    fn takes(&self, e: FragmentationEntry) -> bool
        requires { well_formed self.now ≡ true }
        ensures { result ≡ fits (plus (total_of e.id (entries_of self.now)) e) }
    {
        match place(&self.ids[..self.count], e.id) {
            Ok(i) => self.entry(i).plus(e).is_some(),
            Err(_) => true,
        }
    }

    // Whether all of the source fits on what is held. By `all` the proof stops at `entry`'s bound: of a closure called on each item, the lemma
    // for `all` does not tell that the item lies in the range.
    fn takes_all(&self, source: &FragmentationMap) -> bool
        requires { (source.now.count ≤ 64) × (well_formed self.now ≡ true) }
        ensures { result ≡ sums_fit (entries_of source.now) (entries_of self.now) }
    {
        for i in 0..source.count {
            if !self.takes(source.entry(i)) {
                return false;
            }
        }
        true
    }

    // 12 is looked for first; then the entries are added, and 11 met on the way.
    fn add_sound(&mut self, source: &FragmentationMap) -> Result<(), CountRefusal>
        requires { (well_formed source.now ≡ true) × (well_formed self.old ≡ true) }
        ensures { Ends self.old (judged (added_all (entries_of source.now) (entries_of self.old))) result self.new }
    {
        told(self.ids, self.frames, self.stated, self.disk);
        if !self.takes_all(source) {
            return Err(CountRefusal::SumTooBig);
        }
        Lent {
            count: &mut self.count,
            ids: &mut self.ids,
            frames: &mut self.frames,
            stated: &mut self.stated,
            disk: &mut self.disk,
        }
        .add_each(source)
    }

    pub fn merge_into(self, target: FragmentationMap) -> Merged
        ensures { result ≡ merged_of self target }
    {
        if !self.well_formed() || !target.well_formed() {
            return refused(self, target, CountRefusal::MapFull);
        }
        let mut sum = target;
        match sum.add_sound(&self) {
            Ok(()) => Merged {
                answer: Ok(()),
                source: FragmentationMap::new(),
                target: sum,
            },
            Err(why) => refused(self, target, why),
        }
    }
}
