// A refusal that is one case of a wider one.
ghost use Rattle.std.specs.Prelude.{◌≡◌};
ghost use Rattle.frames.specs.Refusals.{widened, cut_refusal};

use super::steps::{FrameRefusal, ScanRefusal};
use numbers::cut::CutShort;

impl From<CutShort> for ScanRefusal {
    ghost from_gives = { λ cut why. why ≡ cut_refusal cut };

    fn from(cut: CutShort) -> ScanRefusal {
        ScanRefusal::CutShort(cut)
    }
}

impl From<FrameRefusal> for ScanRefusal {
    ghost from_gives = { λ why wide. wide ≡ widened why };

    fn from(why: FrameRefusal) -> ScanRefusal {
        match why {
            FrameRefusal::CutShort(cut) => ScanRefusal::CutShort(cut),
            FrameRefusal::InvalidHeader { at } => ScanRefusal::InvalidHeader { at },
        }
    }
}
