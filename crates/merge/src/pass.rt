// One pass over an image: a merge's state, with each head scanned once and kept.
ghost use Rattle.std.specs.Prelude.{true, ◌≡◌, ◌<◌, length, set};
ghost use Rattle.std.specs.Result.{result_err};
ghost use Rattle.merge.specs.Parts.{table_ok, taken_of};
ghost use Rattle.merge.specs.Merge.{front_of};
ghost use Rattle.merge.specs.Pass.{Going, kept};

use super::heads::{Head, head_at};
use super::parts::MergeScanner;
use super::refusals::MergeRefusal;
use super::tournament::{build, climb};

#[derive(Drop)]
pub(crate) struct Pass<'a> {
    image: &'a [u8],
    pub(crate) state: MergeScanner,
    // Leaf 16 + i is the head of part i. An array: the library has no heap.
    tree: [Option<Head>; 32],
    // The refusal of the lowest part that refuses.
    refusal: Option<MergeRefusal>,
    ghost going: { Going image.now state tree refusal },
}

// What a part shows kept as a leaf, an entry or none; and the refusal, if it is one.
fn keep(
    tree: &mut [Option<Head>; 32],
    leaf: usize,
    shown: Result<Option<Head>, MergeRefusal>,
) -> Option<MergeRefusal>
    requires { leaf < 32 }
    ensures leaf { tree.new ≡ set tree.old leaf (kept shown) }
    ensures refusal { result ≡ result_err shown }
{
    match shown {
        Ok(found) => {
            tree[leaf] = found;
            None
        }
        Err(why) => {
            tree[leaf] = None;
            Some(why)
        }
    }
}

impl<'a> Pass<'a> {
    // Every head is scanned.
    pub(crate) fn begin(image: &'a [u8], state: MergeScanner) -> Pass<'a>
        requires { table_ok (length image.now) state ≡ true }
        ensures image { result.image ≡ image.entry }
        ensures state { result.state ≡ state }
    {
        let mut tree = [None; 32];
        let mut refusal = None;
        for (i, part) in state.parts[..state.count].iter().enumerate() {
            let shown = head_at(image, i, *part);
            refusal = refusal.or(keep(&mut tree, 16 + i, shown));
        }
        build(image, &mut tree);
        Pass {
            image,
            state,
            tree,
            refusal,
        }
    }

    // What goes first.
    pub(crate) fn front(&self) -> Result<Option<Head>, MergeRefusal>
        ensures { result ≡ front_of self.now.image.now self.now.state }
    {
        match self.refusal {
            Some(why) => Err(why),
            None => Ok(self.tree[1]),
        }
    }

    // The entry that goes first is taken: the head of its part is scanned anew.
    pub(crate) fn take(&mut self, first: Head)
        requires { front_of self.old.image.now self.old.state ≡ Ok (Some first) }
        ensures image { self.new.image ≡ self.old.image }
        ensures state { self.new.state ≡ taken_of self.old.state first.entry.part first.next }
    {
        let k = first.entry.part;
        self.state.take(first);
        let shown = head_at(self.image, k, self.state.parts[k]);
        self.refusal = keep(&mut self.tree, 16 + k, shown);
        climb(self.image, &mut self.tree, 16 + k);
    }
}
