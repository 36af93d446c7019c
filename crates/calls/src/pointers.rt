// The letters I and i: an indirection written and read.
use crate::input::{Input, Malformed};
use crate::output::{Output, used, whole};
use crate::stop::Stop;
use numbers::handle::{BlobIndirection, ValueHandle};
use numbers::leb128::{Decoded, WriteRefusal};
use std::fmt;
use std::io::Write;

// n id, n offset, n size.
pub fn handle(input: &mut Input) -> Result<ValueHandle, Malformed> {
    Ok(ValueHandle {
        file: input.number()?,
        offset: input.number()?,
        size: input.short()?,
    })
}

// A handle, n stated.
pub fn pointer(input: &mut Input) -> Result<BlobIndirection, Malformed> {
    Ok(BlobIndirection {
        handle: handle(input)?,
        stated: input.short()?,
    })
}

// An indirection's numbers: id, offset, on-disk size and stated length. The form is this program's (docs/CALLS.md), and no property of the type.
#[derive(Clone, Copy)]
pub struct Numbers(pub BlobIndirection);

impl fmt::Display for Numbers {
    fn fmt<W: fmt::Write>(&self, f: &mut fmt::Formatter<W>) -> fmt::Result {
        let ValueHandle { offset, file, size } = self.0.handle;
        write!(f, "{file} {offset} {size} {}", self.0.stated)
    }
}

pub fn written(input: &mut Input, out: &mut Output) -> Result<(), Stop> {
    let p = pointer(input)?;
    let n = input.bounded(64)?;
    let mut bytes = [0xEE; 64];
    let room = &mut bytes[..n];
    used(out, p.encode(room, 0).map_err(WriteRefusal::number))?;
    whole(out, room)?;
    Ok(())
}

pub fn read(input: &mut Input, out: &mut Output) -> Result<(), Stop> {
    let bytes = input.bytes()?;
    match BlobIndirection::decode(bytes, 0) {
        Ok(Decoded { value, used }) => writeln!(out, "ptr {} {used}", Numbers(value))?,
        Err(why) => writeln!(out, "refused {}", why.number())?,
    }
    Ok(())
}
