// What is judged of a file by the map and by what its writer reported: dead, and stale.
ghost use Rattle.std.specs.Prelude.{◌≡◌};
ghost use Rattle.garbage.specs.Refusals.{dead_number, stale_number};
ghost use Rattle.garbage.specs.Verdicts.{dead_of, stale_of};

use crate::map::{FragmentationMap, MapFull};
use crate::ratio::ratio;
use frames::writer::Report;

// Refused: the map is malformed. No Result: `DeadVerdict::number` is promised (docs/PROMISES.md), of each of the four.
#[derive(Clone, Copy)]
pub enum DeadVerdict {
    Dead,
    Wanted,
    NoEntry,
    Refused,
}

// The ratio that a file was judged by stands in the verdict: document 01 names this form.
#[derive(Clone, Copy)]
pub enum StaleVerdict {
    Stale(f32),
    Kept(f32),
    NoEntry,
    Refused,
}

impl DeadVerdict {
    // Document 01's number; 0 where nothing is refused.
    pub fn number(self) -> u64
        ensures { result ≡ dead_number self }
    {
        match self {
            DeadVerdict::Dead => 0,
            DeadVerdict::Wanted => 0,
            DeadVerdict::NoEntry => 0,
            DeadVerdict::Refused => 11,
        }
    }
}

impl StaleVerdict {
    // Document 01's number; 0 where nothing is refused.
    pub fn number(self) -> u64
        ensures { result ≡ stale_number self }
    {
        match self {
            StaleVerdict::Stale(_) => 0,
            StaleVerdict::Kept(_) => 0,
            StaleVerdict::NoEntry => 0,
            StaleVerdict::Refused => 11,
        }
    }
}

// The entry is that of `id`, the total that of `report`: a report has no id of its own.
pub fn is_dead(map: FragmentationMap, id: u64, report: Report) -> DeadVerdict
    ensures { result ≡ dead_of map id report }
{
    match map.get(id) {
        Ok(Some(e)) => {
            if e.stated == report.stated {
                DeadVerdict::Dead
            } else {
                DeadVerdict::Wanted
            }
        }
        Ok(None) => DeadVerdict::NoEntry,
        Err(MapFull) => DeadVerdict::Refused,
    }
}

pub fn is_stale(map: FragmentationMap, id: u64, report: Report, threshold: f32) -> StaleVerdict
    ensures { result ≡ stale_of map id report threshold }
{
    match map.get(id) {
        Ok(Some(e)) => {
            let r = ratio(e.stated, report.stated);
            if r >= threshold {
                StaleVerdict::Stale(r)
            } else {
                StaleVerdict::Kept(r)
            }
        }
        Ok(None) => StaleVerdict::NoEntry,
        Err(MapFull) => StaleVerdict::Refused,
    }
}
