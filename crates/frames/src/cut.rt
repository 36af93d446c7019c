// A read that needs more bytes than there are is cut short.
ghost use Rattle.std.specs.Prelude.{◌≡◌, ◌-◌, ◌<◌, ◌≤◌, length, MatchResult};
ghost use Rattle.frames.specs.Cut.{cut_of};

use numbers::bytes::room;
use numbers::cut::CutShort;

// Of the bytes from `at` on, `present` are there.
pub(crate) fn enough(at: usize, needed: usize, present: usize) -> Result<(), CutShort>
    ensures { MatchResult result (λ _. needed ≤ present) (λ cut. (present < needed) × (cut ≡ cut_of at needed present)) }
{
    if present < needed {
        return Err(CutShort {
            at,
            needed,
            present,
        });
    }
    Ok(())
}

// The same of the bytes of a file.
pub(crate) fn has(file: &[u8], at: usize, needed: usize) -> Result<(), CutShort>
    ensures { let present = length file.now - at in
        MatchResult result (λ _. needed ≤ present) (λ cut. (present < needed) × (cut ≡ cut_of at needed present)) }
{
    enough(at, needed, room(file.len(), at))
}
