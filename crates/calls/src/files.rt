// The letter W: steps of a writer over a room of its own.
use crate::input::{Input, Malformed};
use crate::output::{Output, whole};
use crate::pointers::Numbers;
use crate::stop::Stop;
use frames::place::Place;
use frames::writer::{AppendRefusal, Appended, Closed, Refused, Report, Writer};
use std::io;
use std::io::Write;

fn done(out: &mut Output, r: Report) -> io::Result<()> {
    let places = [r.first.at, r.first.len, r.last.at, r.last.len];
    write!(out, "done")?;
    out.numbers(&[r.items, r.disk, r.stated])?;
    out.numbers(&places.map(|x| x as u64))?;
    writeln!(out)
}

fn show(out: &mut Output, w: Writer) -> io::Result<()> {
    let places = [w.first.at, w.first.len, w.last.at, w.last.len];
    write!(out, "writer")?;
    out.numbers(&[w.id, w.offset as u64, w.items, w.disk, w.stated])?;
    out.numbers(&[w.target, w.finished as u64])?;
    out.numbers(&places.map(|x| x as u64))?;
    writeln!(out)
}

fn place(input: &mut Input) -> Result<Place, Malformed> {
    Ok(Place {
        at: input.number()? as usize,
        len: input.number()? as usize,
    })
}

// A writer in any state.
fn state(input: &mut Input) -> Result<Writer, Malformed> {
    Ok(Writer {
        id: input.number()?,
        offset: input.number()? as usize,
        items: input.number()?,
        disk: input.number()?,
        stated: input.number()?,
        target: input.number()?,
        finished: input.flag()?,
        first: place(input)?,
        last: place(input)?,
    })
}

// A writer, and the room that it writes to.
#[derive(Drop)]
struct Desk<'a> {
    writer: Writer,
    room: &'a mut [u8],
}

impl Desk<'_> {
    // The writer that a refusal hands back is the one to go on with.
    fn refused(&mut self, out: &mut Output, number: u64, writer: Writer) -> io::Result<()> {
        self.writer = writer;
        writeln!(out, "refused {number}")
    }

    fn appended(
        &mut self,
        out: &mut Output,
        answer: Result<Appended, Refused<AppendRefusal>>,
    ) -> io::Result<()> {
        match answer {
            Ok(appended) => {
                self.writer = appended.writer;
                writeln!(out, "put {}", Numbers(appended.pointer))?;
                match appended.report {
                    Some(report) => done(out, report),
                    None => Ok(()),
                }
            }
            Err(Refused { why, writer }) => self.refused(out, why.number(), writer),
        }
    }

    fn plain(&mut self, input: &mut Input, out: &mut Output) -> Result<(), Stop> {
        let key = input.bytes()?;
        let seqno = input.number()?;
        let value = input.bytes()?;
        let answer = self.writer.append(self.room, key, seqno, value);
        self.appended(out, answer)?;
        Ok(())
    }

    fn raw(&mut self, input: &mut Input, out: &mut Output) -> Result<(), Stop> {
        let key = input.bytes()?;
        let seqno = input.number()?;
        let value = input.bytes()?;
        let stated = input.short()?;
        let answer = self.writer.append_raw(self.room, key, seqno, stated, value);
        self.appended(out, answer)?;
        Ok(())
    }

    fn finish(&mut self, out: &mut Output) -> io::Result<()> {
        match self.writer.finish(self.room) {
            Ok(Closed { writer, report }) => {
                self.writer = writer;
                done(out, report)
            }
            Err(Refused { why, writer }) => self.refused(out, why.number(), writer),
        }
    }

    // The room is shown and filled anew.
    fn next_file(&mut self, out: &mut Output) -> io::Result<()> {
        match self.writer.next_file() {
            Ok(writer) => {
                self.writer = writer;
                whole(out, self.room)?;
                self.room.fill(0xEE);
                writeln!(out, "next {}", writer.id)
            }
            Err(Refused { why, writer }) => self.refused(out, why.number(), writer),
        }
    }

    // The kinds are the format's (docs/CALLS.md), and their calls take different things.
    fn step(&mut self, input: &mut Input, out: &mut Output) -> Result<(), Stop> {
        match input.number()? {
            0 => self.plain(input, out)?,
            1 => self.raw(input, out)?,
            2 => self.finish(out)?,
            3 => self.next_file(out)?,
            4 => self.writer = self.writer.use_target_size(input.number()?),
            5 => self.writer = state(input)?,
            6 => show(out, self.writer)?,
            _ => return Err(Stop::Malformed),
        }
        Ok(())
    }
}

pub fn written(input: &mut Input, out: &mut Output) -> Result<(), Stop> {
    let n = input.bounded(32768)?;
    let id = input.number()?;
    let target = input.number()?;
    let count = input.number()?;
    let mut bytes = [0xEE; 32768];
    let mut desk = Desk {
        writer: Writer::new(id).use_target_size(target),
        room: &mut bytes[..n],
    };
    for _ in 0..count {
        desk.step(input, out)?;
    }
    whole(out, desk.room)?;
    Ok(())
}
