// The merge: the next entry of all parts.
ghost use Rattle.std.specs.Prelude.{◌≡◌};
ghost use Rattle.merge.specs.Merge.{next_of};

use super::heads::MergeEntry;
use super::parts::MergeScanner;
use super::pass::Pass;
pub use super::refusals::MergeRefusal;

#[derive(Clone, Copy, PartialEq, Eq)]
pub struct Merged {
    pub state: MergeScanner,
    pub answer: Result<Option<MergeEntry>, MergeRefusal>,
}

impl MergeScanner {
    // None is the end.
    pub fn next(self, image: &[u8]) -> Merged
        ensures { result ≡ next_of self image.now }
    {
        if !self.fits(image.len()) {
            return Merged {
                state: self,
                answer: Err(MergeRefusal::BadPart),
            };
        }
        // Case by case, the state beside the answer: by `if let` and `map` the answer would be taken apart twice.
        match Pass::begin(image, self).front() {
            Ok(Some(first)) => {
                let mut state = self;
                state.take(first);
                Merged {
                    state,
                    answer: Ok(Some(first.entry)),
                }
            }
            Ok(None) => Merged {
                state: self,
                answer: Ok(None),
            },
            Err(why) => Merged {
                state: self,
                answer: Err(why),
            },
        }
    }
}
