// The scan: one step over lent bytes, with and without the test of the sum.
ghost use Rattle.std.specs.Prelude.{◌≡◌, false};
ghost use Rattle.frames.specs.Scan.{going, frame_at, step_of, cut_back};

use super::cut::has;
use super::header::{BLOB, BLOB_HEADER_LEN, META, marked, read_header};
use super::place::Place;
pub use super::steps::{
    FrameRefusal, Framed, ScanEntry, ScanRefusal, Scanned, Scanner, Step, Untested,
};
pub use super::tested::{checked, entry_sum};
use numbers::bytes::tail;
use numbers::cut::CutShort;

impl Scanner {
    pub fn new() -> Self
        ensures { result ≡ going 0 }
    {
        Scanner::going(0)
    }

    fn going(at: usize) -> Self
        ensures { result ≡ going at }
    {
        Scanner { at, ended: false }
    }

    // A step of a scan that has not ended, up to the sum.
    fn read(self, file: &[u8]) -> Result<Framed, CutShort>
        requires { self.ended ≡ false }
        ensures { cut_back self result ≡ frame_at file.now self }
    {
        let at = self.at;
        has(file, at, 4)?;
        let frame = tail(file, at);
        if marked(frame, META) {
            let next = Scanner { at, ended: true };
            return Ok(Step::End { at, next });
        }
        if !marked(frame, BLOB) {
            let next = Scanner::going(at + 4);
            return Ok(Step::Refused(FrameRefusal::InvalidHeader { at }, next));
        }
        has(file, at + 4, BLOB_HEADER_LEN - 4)?;
        let header = read_header(frame);
        let key = Place {
            at: at + BLOB_HEADER_LEN,
            len: header.key as usize,
        };
        has(file, key.at, key.len)?;
        let value = Place {
            at: key.at + key.len,
            len: header.size as usize,
        };
        has(file, value.at, value.len)?;
        let entry = ScanEntry {
            offset: at,
            key,
            seqno: header.seqno,
            stated: header.stated,
            value,
        };
        let found = Untested {
            entry,
            stored: header.sum,
        };
        Ok(Step::Entry(found, Scanner::going(value.at + value.len)))
    }

    // One step that leaves the sum untested. Cut short, the scanner comes back as it was.
    pub fn step_unchecked(self, file: &[u8]) -> Framed
        ensures { result ≡ frame_at file.now self }
    {
        if self.ended {
            return Step::End {
                at: self.at,
                next: self,
            };
        }
        match self.read(file) {
            Ok(framed) => framed,
            Err(cut) => Step::Refused(FrameRefusal::CutShort(cut), self),
        }
    }

    // One step.
    pub fn step(self, file: &[u8]) -> Scanned
        ensures { result ≡ step_of file.now self }
    {
        checked(file, self.step_unchecked(file))
    }
}
