// What points at a frame's value, and what a tree stores in a value's place.
ghost use Rattle.std.specs.Prelude.{◌≡◌, ◌+◌, ◌≤◌, length};
ghost use Rattle.std.proofs.lemmas.List.Edits.{sets};
ghost use Rattle.numbers.specs.Wrote.{wrote_of, placed};
ghost use Rattle.numbers.specs.Handle.{handle_bytes, indirection_bytes, handle_of, indirection_of};

use crate::bytes::room;
use crate::leb128::{Decoded, NumberRefusal, WriteRefusal, read};
use crate::spell::{size, spell};

#[derive(Clone, Copy, Debug, PartialEq, Eq)]
pub struct ValueHandle {
    pub offset: u64,
    pub file: u64,
    pub size: u32,
}

#[derive(Clone, Copy, Debug, PartialEq, Eq)]
pub struct BlobIndirection {
    pub handle: ValueHandle,
    pub stated: u32,
}

fn handle_size(h: ValueHandle) -> usize
    ensures size { result ≡ length (handle_bytes h) }
    ensures bound { result ≤ 30 }
{
    size(h.offset) + size(h.file) + size(h.size)
}

// Lays a handle down where it fits and answers the place after it.
fn spell_handle(buf: &mut [u8], at: usize, h: ValueHandle) -> usize
    requires { at + length (handle_bytes h) ≤ length buf.old }
    ensures end { result ≡ at + length (handle_bytes h) }
    ensures bytes { buf.new ≡ sets buf.old at (handle_bytes h) }
{
    let file_at = spell(buf, at, h.offset);
    let size_at = spell(buf, file_at, h.file);
    spell(buf, size_at, h.size)
}

impl ValueHandle {
    // Offset, file id and on-disk size, each shortest.
    pub fn encode(self, buf: &mut [u8], at: usize) -> Result<usize, WriteRefusal>
        ensures answer { result ≡ wrote_of (handle_bytes self) at buf.old }
        ensures bytes { buf.new ≡ placed (handle_bytes self) at buf.old }
    {
        let n = handle_size(self);
        if room(buf.len(), at) < n {
            return Err(WriteRefusal::NoRoom);
        }
        spell_handle(buf, at, self);
        Ok(n)
    }

    // Left to right; the first bad number refuses.
    pub fn decode(s: &[u8], at: usize) -> Result<Decoded<ValueHandle>, NumberRefusal>
        ensures { result ≡ handle_of at s.now }
    {
        let offset = read::<u64>(s, at)?;
        let file = read::<u64>(s, at + offset.used)?;
        let size = read::<u32>(s, at + offset.used + file.used)?;
        Ok(Decoded {
            value: ValueHandle {
                offset: offset.value,
                file: file.value,
                size: size.value,
            },
            used: offset.used + file.used + size.used,
        })
    }
}

impl BlobIndirection {
    // The handle, then the stated length.
    pub fn encode(self, buf: &mut [u8], at: usize) -> Result<usize, WriteRefusal>
        ensures answer { result ≡ wrote_of (indirection_bytes self) at buf.old }
        ensures bytes { buf.new ≡ placed (indirection_bytes self) at buf.old }
    {
        let handle = self.handle;
        let n = handle_size(handle) + size(self.stated);
        if room(buf.len(), at) < n {
            return Err(WriteRefusal::NoRoom);
        }
        let stated_at = spell_handle(buf, at, handle);
        spell(buf, stated_at, self.stated);
        Ok(n)
    }

    // Left to right; the first bad number refuses.
    pub fn decode(s: &[u8], at: usize) -> Result<Decoded<BlobIndirection>, NumberRefusal>
        ensures { result ≡ indirection_of at s.now }
    {
        let handle = ValueHandle::decode(s, at)?;
        let stated = read::<u32>(s, at + handle.used)?;
        Ok(Decoded {
            value: BlobIndirection {
                handle: handle.value,
                stated: stated.value,
            },
            used: handle.used + stated.used,
        })
    }
}
