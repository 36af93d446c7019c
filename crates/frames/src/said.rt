// What a writer's refusal says, in words for a reader.
ghost use Rattle.std.specs.Prelude.{Some};
ghost use Rattle.frames.specs.Said.{append_said, finish_said, next_said};

use super::refused::{AppendRefusal, FinishRefusal, NextRefusal, Refused};
use std::error::Error;
use std::fmt;

impl fmt::Display for AppendRefusal {
    ghost output = { λ why. Some (append_said why) };

    ghost styled_output = { λ why _. Some (append_said why) };

    fn fmt<W: fmt::Write>(&self, f: &mut fmt::Formatter<W>) -> fmt::Result {
        match self {
            AppendRefusal::Finished => f.write_str("the file is finished"),
            AppendRefusal::BadKey => f.write_str("a key of no byte, or of more than 65,535"),
            AppendRefusal::ValueTooLong => f.write_str("a value of 2^32 bytes or more"),
            AppendRefusal::NoRoom => f.write_str("no room for the frame and the end mark"),
            AppendRefusal::SumTooBig => f.write_str("a total would pass its width"),
        }
    }
}

impl fmt::Display for FinishRefusal {
    ghost output = { λ why. Some (finish_said why) };

    ghost styled_output = { λ why _. Some (finish_said why) };

    fn fmt<W: fmt::Write>(&self, f: &mut fmt::Formatter<W>) -> fmt::Result {
        match self {
            FinishRefusal::Finished => f.write_str("the file is finished"),
            FinishRefusal::NothingWritten => f.write_str("nothing is written"),
            FinishRefusal::NoRoom => f.write_str("no room for the end mark"),
        }
    }
}

impl fmt::Display for NextRefusal {
    ghost output = { λ why. Some (next_said why) };

    ghost styled_output = { λ why _. Some (next_said why) };

    fn fmt<W: fmt::Write>(&self, f: &mut fmt::Formatter<W>) -> fmt::Result {
        match self {
            NextRefusal::NotFinished => f.write_str("the file is not finished"),
            NextRefusal::IdsUsedUp => f.write_str("no file id is left"),
        }
    }
}

impl<E: fmt::Display> fmt::Display for Refused<E> {
    ghost output = { λ back. E.output back.why };

    ghost styled_output = { λ back. E.styled_output back.why };

    fn fmt<W: fmt::Write>(&self, f: &mut fmt::Formatter<W>) -> fmt::Result {
        self.why.fmt(f)
    }
}

impl Error for AppendRefusal {}

impl Error for FinishRefusal {}

impl Error for NextRefusal {}

impl<E: Error> Error for Refused<E> {}
