// What an append makes of a writer by lengths alone: the state after it, or why it is refused.
ghost use Rattle.std.specs.Prelude.{◌≡◌, ◌<◌, ◌^◌, if◌then◌else◌};
ghost use Rattle.frames.specs.Write.{over_of, counted, judged, pointer_of};

use super::place::Place;
use super::refused::AppendRefusal;
use super::shape::Shape;
use super::state::Writer;
use numbers::bytes::room;
use numbers::handle::{BlobIndirection, ValueHandle};

// The longest key and the longest value: the largest numbers that a header has room for.
const KEY_MOST: usize = 65_535;

pub(crate) const VALUE_MOST: usize = 4_294_967_295;

impl Writer {
    // With one more frame in the totals; none where a total would pass its width.
    fn counted(self, shape: Shape) -> Option<Writer>
        ensures { result ≡ (if over_of self shape then None else Some (counted self shape)) }
    {
        Some(Writer {
            items: self.items.checked_add(1)?,
            disk: self.disk.checked_add(shape.value as u64)?,
            stated: self.stated.checked_add(shape.stated as u64)?,
            ..self
        })
    }

    // The state after an append that is taken; n is the buffer's length.
    pub(crate) fn grown(self, n: usize, shape: Shape) -> Result<Writer, AppendRefusal>
        ensures { result ≡ judged self n shape }
    {
        if self.finished {
            return Err(AppendRefusal::Finished);
        }
        if shape.key == 0 || KEY_MOST < shape.key {
            return Err(AppendRefusal::BadKey);
        }
        if VALUE_MOST < shape.value {
            return Err(AppendRefusal::ValueTooLong);
        }
        let size = shape.size();
        if room(n, self.offset) < size + 4 {
            return Err(AppendRefusal::NoRoom);
        }
        let counted = self.counted(shape).ok_or(AppendRefusal::SumTooBig)?;
        let here = Place {
            at: self.offset + shape.front as usize,
            len: shape.key,
        };
        let offset = self.offset + size;
        Ok(Writer {
            offset,
            finished: self.target <= offset as u64,
            first: if self.items == 0 { here } else { self.first },
            last: here,
            ..counted
        })
    }

    // What an append that is taken hands out: where its frame goes.
    pub(crate) fn pointer(self, shape: Shape) -> BlobIndirection
        requires { shape.value < 2 ^ 32 }
        ensures { result ≡ pointer_of self shape }
    {
        let handle = ValueHandle {
            offset: self.offset as u64,
            file: self.id,
            size: shape.value as u32,
        };
        BlobIndirection {
            handle,
            stated: shape.stated,
        }
    }
}
