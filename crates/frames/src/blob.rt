// What a frame is made of, as a caller lends it, and the frame of it.
ghost use Rattle.std.specs.Prelude.{◌≡◌, ◌+◌, ◌<◌, ◌≤◌, ◌^◌, length};
ghost use Rattle.std.proofs.lemmas.List.Edits.{sets};
ghost use Rattle.frames.specs.Layout.{header_length, frame_bytes};
ghost use Rattle.frames.specs.Shape.{item_in, blob_form, shape_of};

use super::header::{BLOB_HEADER_LEN, Header, put_header};
use super::shape::Shape;
use hash::xxh3_128;
use numbers::bytes::{copy, part};

#[derive(Clone, Copy)]
pub(crate) struct Blob<'a> {
    pub key: &'a [u8],
    pub seqno: u64,
    pub stated: u32,
    pub value: &'a [u8],
}

impl<'a> Blob<'a> {
    // The lengths of its frame.
    pub(crate) fn shape(self) -> Shape
        ensures { result ≡ shape_of blob_form (item_in self.entry) }
    {
        Shape {
            front: BLOB_HEADER_LEN as u16,
            key: self.key.len(),
            value: self.value.len(),
            back: 0,
            stated: self.stated,
        }
    }

    // Its frame: key and value first, then the header, with the sum of both where they lie.
    pub(crate) fn put(self, buf: &mut [u8], at: usize)
        requires key { length self.key.now < 65536 }
        requires value { length self.value.now < 2 ^ 32 }
        requires room { at + header_length + length self.key.now + length self.value.now ≤ length buf.old }
        ensures { buf.new ≡ sets buf.old at (frame_bytes (item_in self.entry)) }
    {
        let k = self.key.len();
        let v = self.value.len();
        let body = at + BLOB_HEADER_LEN;
        copy(buf, body, self.key);
        copy(buf, body + k, self.value);
        let sum = xxh3_128(part(buf, body, k + v));
        let header = Header {
            sum,
            seqno: self.seqno,
            key: k as u16,
            stated: self.stated,
            size: v as u32,
        };
        put_header(buf, at, header);
    }
}
