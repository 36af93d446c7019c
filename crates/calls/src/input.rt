// A batch's records: letters and fields, taken from the front one after another.
ghost use Rattle.std.specs.Prelude.{◌≤◌, IfOk};

// A field that is cut, or that the format forbids.
#[derive(Clone, Copy)]
pub struct Malformed;

// The bytes of a batch that are not yet taken.
#[derive(Drop)]
pub struct Input<'a> {
    rest: &'a [u8],
}

impl<'a> Input<'a> {
    pub fn new(batch: &'a [u8]) -> Input<'a> {
        Input { rest: batch }
    }

    // The next record's letter; none at the batch's end.
    pub fn letter(&mut self) -> Option<u8> {
        let (letter, rest) = self.rest.split_first()?;
        self.rest = rest;
        Some(*letter)
    }

    pub fn number(&mut self) -> Result<u64, Malformed> {
        let (bytes, rest) = self.rest.split_first_chunk::<8>().ok_or(Malformed)?;
        self.rest = rest;
        Ok(u64::from_le_bytes(*bytes))
    }

    // A byte string: its length, and then its bytes.
    pub fn bytes(&mut self) -> Result<&'a [u8], Malformed> {
        let len = self.number()? as usize;
        let (bytes, rest) = self.rest.split_at_checked(len).ok_or(Malformed)?;
        self.rest = rest;
        Ok(bytes)
    }

    // A number that is at most `most`.
    pub fn bounded(&mut self, most: usize) -> Result<usize, Malformed>
        ensures { IfOk result (λ n. n ≤ most) }
    {
        let n = self.number()? as usize;
        if n <= most { Ok(n) } else { Err(Malformed) }
    }

    // A number below 2^32.
    pub fn short(&mut self) -> Result<u32, Malformed> {
        u32::try_from(self.number()?).map_err(|_| Malformed)
    }

    // 0 or 1.
    pub fn flag(&mut self) -> Result<bool, Malformed> {
        Ok(self.bounded(1)? == 1)
    }
}
