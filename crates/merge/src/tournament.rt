// The heads' tournament: node j holds the first of nodes 2 j and 2 j + 1, so that one new head costs four comparisons.
ghost use Rattle.std.specs.Prelude.{◌≡◌, ℕ, ◌+◌, ◌*◌, ◌/◌, ◌<◌, set, if◌then◌else◌};
ghost use Rattle.merge.specs.Merge.{ahead};
ghost use Rattle.merge.specs.Pass.{winner, node_at, Won, Settled};

use super::heads::{Head, MergeEntry};
use super::order::compare;
use numbers::bytes::part;

// Whether x goes before y: by key, then the larger seqno, then the lower part number.
fn goes_first(image: &[u8], x: &MergeEntry, y: &MergeEntry) -> bool
    ensures { result ≡ ahead image.now x.now y.now }
{
    let a = part(image, x.key.at, x.key.len);
    let b = part(image, y.key.at, y.key.len);
    compare(a, b)
        .then(y.seqno.cmp(&x.seqno))
        .then(x.part.cmp(&y.part))
        .is_lt()
}

// Whether the first of two heads goes first; a head alone does.
fn wins(image: &[u8], x: &Option<Head>, y: &Option<Head>) -> bool
    ensures { (if result then x.now else y.now) ≡ winner image.now x.now y.now }
{
    let Some(a) = x else {
        return false;
    };
    let Some(b) = y else {
        return true;
    };
    goes_first(image, &a.entry, &b.entry)
}

// Node j anew, from the two below it. No method of `Pass`: every node of a pass is won, and here some are not yet.
fn play(image: &[u8], tree: &mut [Option<Head>; 32], j: usize)
    requires { j < 16 }
    ensures { tree.new ≡ set tree.old j (winner image.now (node_at tree.old (2 * j)) (node_at tree.old (2 * j + 1))) }
{
    let first = if wins(image, &tree[2 * j], &tree[2 * j + 1]) {
        2 * j
    } else {
        2 * j + 1
    };
    tree[j] = tree[first];
}

// All nodes over the leaves.
pub(crate) fn build(image: &[u8], tree: &mut [Option<Head>; 32])
    ensures { Settled image.now tree.old tree.new }
{
    for j in (1..16).rev() {
        play(image, tree, j);
    }
}

// The nodes over a leaf up to the root, anew. No index is counted: the way is by halves.
pub(crate) fn climb(image: &[u8], tree: &mut [Option<Head>; 32], leaf: usize)
    requires at_leaf { leaf < 32 }
    requires others { (j : ℕ) → 0 < j → j < 16 → (j ≡ leaf / 2 → ⊥) → Won image.now tree.old j }
    ensures { Settled image.now tree.old tree.new }
{
    let mut j = leaf / 2;
    while 0 < j {
        play(image, tree, j);
        j /= 2;
    }
}
