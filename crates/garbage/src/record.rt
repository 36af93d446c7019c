// A dropped record as a tree holds it: the encoded indirection, with its mark.
ghost use Rattle.std.specs.Prelude.{◌≡◌};
ghost use Rattle.garbage.specs.Records.{record_of};
ghost use Rattle.garbage.specs.Refusals.{record_number};
ghost use Rattle.garbage.specs.declared.record.RecordRefusal.TheVariants.{Number, Count};
ghost use Rattle.garbage.specs.declared.map.CountRefusal.TheVariants as refusal;

use crate::map::{CountRefusal, FragmentationMap, MapFull};
use numbers::handle::BlobIndirection;
use numbers::leb128::NumberRefusal;

// Why a record was not counted: a number of it could not be read, or the drop was refused.
#[derive(Clone, Copy, PartialEq, Eq)]
pub enum RecordRefusal {
    Number(NumberRefusal),
    Count(CountRefusal),
}

// Refused, the map is as it came in.
#[derive(Clone, Copy, PartialEq, Eq)]
pub struct RecordDropped {
    pub answer: Result<(), RecordRefusal>,
    pub map: FragmentationMap,
}

impl RecordRefusal {
    // Document 01's number.
    pub fn number(self) -> u64
        ensures { result ≡ record_number self }
    {
        match self {
            RecordRefusal::Number(why) => why.number(),
            RecordRefusal::Count(why) => why.number(),
        }
    }
}

impl From<NumberRefusal> for RecordRefusal {
    ghost from_gives = { λ why e. e ≡ Number why };

    fn from(why: NumberRefusal) -> RecordRefusal {
        RecordRefusal::Number(why)
    }
}

impl From<CountRefusal> for RecordRefusal {
    ghost from_gives = { λ why e. e ≡ Count why };

    fn from(why: CountRefusal) -> RecordRefusal {
        RecordRefusal::Count(why)
    }
}

impl From<MapFull> for RecordRefusal {
    ghost from_gives = { λ why e. e ≡ Count refusal.MapFull };

    fn from(why: MapFull) -> RecordRefusal {
        RecordRefusal::Count(CountRefusal::from(why))
    }
}

impl FragmentationMap {
    // A record counted where the map stands; refused, nothing changes.
    fn count_record(&mut self, marked: bool, encoded: &[u8]) -> Result<(), RecordRefusal>
        ensures { record { answer = result; map = self.new } ≡ record_of self.old marked encoded.now }
    {
        self.sound()?;
        if !marked {
            return Ok(());
        }
        let decoded = BlobIndirection::decode(encoded, 0)?;
        self.count_drop(decoded.value)?;
        Ok(())
    }

    // What follows the indirection is left. docs/PROMISES.md names this call with its mark, which may be false beside any bytes: 11 comes
    // before it is looked at.
    pub fn drop_record(self, marked: bool, encoded: &[u8]) -> RecordDropped
        ensures { result ≡ record_of self marked encoded.now }
    {
        let mut map = self;
        let answer = map.count_record(marked, encoded);
        RecordDropped { answer, map }
    }
}
