// The frame writer and its rotation: a state by value over lent bytes.
ghost use Rattle.std.specs.Prelude.{◌≡◌, length};
ghost use Rattle.std.proofs.lemmas.List.Edits.{sets};
ghost use Rattle.frames.specs.Shape.{item_of, plain_of, blob_form};
ghost use Rattle.frames.specs.Write.{new_writer, targeted, report_of, reported, end_bytes, handed_back};
ghost use Rattle.frames.specs.Write.{answered, append_answer, append_bytes, finish_answer, finish_bytes, next_of};

use super::blob::Blob;
use super::growth::VALUE_MOST;
use super::header::META;
use super::place::Place;
pub use super::refused::{AppendRefusal, FinishRefusal, NextRefusal, Refused};
use super::shape::Shape;
pub use super::state::Writer;
use numbers::bytes::{lesser, room};
use numbers::handle::BlobIndirection;
use numbers::put;

// What finishing a file reports: five of the writer's numbers, handed out at the end. As a field of the writer it would be there before the end, too,
// and `counted` and `grown`, which set all five at each append, would build a struct inside a struct.
#[derive(Clone, Copy, Debug, PartialEq, Eq)]
pub struct Report {
    pub items: u64,
    pub disk: u64,
    pub stated: u64,
    pub first: Place,
    pub last: Place,
}

// What an append that is taken answers; with a report where it reached the target, and finished the file.
#[derive(Clone, Copy, Debug, PartialEq, Eq)]
pub struct Appended {
    pub pointer: BlobIndirection,
    pub writer: Writer,
    pub report: Option<Report>,
}

#[derive(Clone, Copy, Debug, PartialEq, Eq)]
pub struct Closed {
    pub writer: Writer,
    pub report: Report,
}

impl Writer {
    // All zeros by hand, each by its name: an empty place is no default of `Place`.
    pub fn new(id: u64) -> Self
        ensures { result ≡ new_writer id }
    {
        let none = Place { at: 0, len: 0 };
        Writer {
            id,
            offset: 0,
            items: 0,
            disk: 0,
            stated: 0,
            target: 67_108_864,
            finished: false,
            first: none,
            last: none,
        }
    }

    pub fn use_target_size(mut self, target: u64) -> Self
        ensures { result ≡ targeted self target }
    {
        self.target = target;
        self
    }

    fn report(self) -> Report
        ensures { result ≡ report_of self }
    {
        Report {
            items: self.items,
            disk: self.disk,
            stated: self.stated,
            first: self.first,
            last: self.last,
        }
    }

    // META behind the last frame of a file that is finished.
    fn put_end(self, buf: &mut [u8])
        ensures { buf.new ≡ sets buf.old self.offset (end_bytes self.finished) }
    {
        if self.finished {
            put(buf, self.offset, META);
        }
    }

    fn refused<E>(self, why: E) -> Refused<E>
        ensures { result ≡ handed_back self why }
    {
        Refused { why, writer: self }
    }

    // What an append answers by lengths alone: those of the frame, and n, the buffer's. Nothing is written.
    pub fn answer(self, n: usize, shape: Shape) -> Result<Appended, Refused<AppendRefusal>>
        ensures { result ≡ answered self n shape }
    {
        let writer = self.grown(n, shape).map_err(|why| self.refused(why))?;
        Ok(Appended {
            pointer: self.pointer(shape),
            writer,
            report: writer.finished.then_some(writer.report()),
        })
    }

    // A frame that carries the caller's stated length.
    pub fn append_raw(
        self,
        buf: &mut [u8],
        key: &[u8],
        seqno: u64,
        stated: u32,
        value: &[u8],
    ) -> Result<Appended, Refused<AppendRefusal>>
        ensures answer { result ≡ append_answer blob_form self buf.old (item_of key.now seqno stated value.now) }
        ensures bytes { buf.new ≡ append_bytes blob_form self buf.old (item_of key.now seqno stated value.now) }
    {
        let blob = Blob {
            key,
            seqno,
            stated,
            value,
        };
        let appended = self.answer(buf.len(), blob.shape())?;
        blob.put(buf, self.offset);
        appended.writer.put_end(buf);
        Ok(appended)
    }

    // A frame that states its value's own length.
    pub fn append(
        self,
        buf: &mut [u8],
        key: &[u8],
        seqno: u64,
        value: &[u8],
    ) -> Result<Appended, Refused<AppendRefusal>>
        ensures answer { result ≡ append_answer blob_form self buf.old (plain_of key.now seqno value.now) }
        ensures bytes { buf.new ≡ append_bytes blob_form self buf.old (plain_of key.now seqno value.now) }
    {
        // a longer value is refused before its length is stated
        let stated = lesser(value.len(), VALUE_MOST) as u32;
        self.append_raw(buf, key, seqno, stated, value)
    }

    // The end mark, asked for.
    pub fn finish(self, buf: &mut [u8]) -> Result<Closed, Refused<FinishRefusal>>
        ensures answer { result ≡ finish_answer self (length buf.old) }
        ensures bytes { buf.new ≡ finish_bytes self buf.old }
    {
        if self.finished {
            return Err(self.refused(FinishRefusal::Finished));
        }
        if self.items == 0 {
            return Err(self.refused(FinishRefusal::NothingWritten));
        }
        if room(buf.len(), self.offset) < 4 {
            return Err(self.refused(FinishRefusal::NoRoom));
        }
        let writer = Writer {
            finished: true,
            ..self
        };
        writer.put_end(buf);
        Ok(Closed {
            writer,
            report: writer.report(),
        })
    }

    // The writer of the next file.
    pub fn next_file(self) -> Result<Writer, Refused<NextRefusal>>
        ensures { result ≡ next_of self }
    {
        if !self.finished {
            return Err(self.refused(NextRefusal::NotFinished));
        }
        let Some(id) = self.id.checked_add(1) else {
            return Err(self.refused(NextRefusal::IdsUsedUp));
        };
        Ok(Writer::new(id).use_target_size(self.target))
    }
}
