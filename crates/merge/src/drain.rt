// The drain before a relocation.
ghost use Rattle.std.specs.Prelude.{◌≡◌, MatchResult};
ghost use Rattle.merge.specs.Drain.{stop_of, drain_of};

use super::heads::{Head, MergeEntry};
use super::order::compare;
use super::parts::MergeScanner;
use super::pass::Pass;
pub use super::refusals::DrainRefusal;
use super::refusals::MergeRefusal;
use numbers::bytes::part;
use numbers::handle::ValueHandle;
use std::cmp::Ordering;

#[derive(Clone, Copy, PartialEq, Eq)]
pub enum Outcome {
    Found,
    Past,
    End,
}

#[derive(Clone, Copy, PartialEq, Eq)]
pub struct Drained {
    pub state: MergeScanner,
    pub outcome: Result<Outcome, DrainRefusal>,
}

// The outcome at an entry; none where it is skipped.
fn stop(
    image: &[u8],
    x: MergeEntry,
    key: &[u8],
    handle: ValueHandle,
) -> Option<Result<Outcome, DrainRefusal>>
    ensures { result ≡ stop_of image.now x key.now handle }
{
    let k = part(image, x.key.at, x.key.len);
    match compare(k, key) {
        Ordering::Less => None,
        Ordering::Greater => Some(Err(DrainRefusal::NotMatched)),
        Ordering::Equal if x.file != handle.file => None,
        Ordering::Equal => match handle.offset.cmp(&(x.offset as u64)) {
            Ordering::Less => Some(Ok(Outcome::Past)),
            Ordering::Equal => Some(Ok(Outcome::Found)),
            Ordering::Greater => None,
        },
    }
}

// The outcome where no entry came.
fn over(front: Result<Option<Head>, MergeRefusal>) -> Result<Outcome, DrainRefusal>
    ensures { MatchResult front (λ _. result ≡ Ok Outcome.End) (λ why. result ≡ Err (DrainRefusal.Merge why)) }
{
    front?;
    Ok(Outcome::End)
}

impl MergeScanner {
    // Entries are skipped until the sought one, which stays untaken.
    pub fn drain_blobs(self, image: &[u8], key: &[u8], handle: ValueHandle) -> Drained
        ensures { result ≡ drain_of self image.now key.now handle }
    {
        if !self.fits(image.len()) {
            return Drained {
                state: self,
                outcome: Err(DrainRefusal::Merge(MergeRefusal::BadPart)),
            };
        }
        let mut pass = Pass::begin(image, self);
        // Document 01's form: the answer is taken apart by `let .. else`, and the loop is left at the end or a refusal.
        loop {
            let front = pass.front();
            let Ok(Some(first)) = front else {
                return Drained {
                    state: pass.state,
                    outcome: over(front),
                };
            };
            if let Some(outcome) = stop(image, first.entry, key, handle) {
                return Drained {
                    state: pass.state,
                    outcome,
                };
            }
            pass.take(first);
        }
    }
}
