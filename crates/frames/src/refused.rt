// Why a writer's call is refused, each reason with document 01's number; the writer is handed back as it came.
ghost use Rattle.std.specs.Prelude.{◌≡◌};
ghost use Rattle.frames.specs.Refusals.{append_number, finish_number, next_number};

use super::state::Writer;

#[derive(Clone, Copy, Debug, PartialEq, Eq)]
pub struct Refused<E> {
    pub why: E,
    pub writer: Writer,
}

#[derive(Clone, Copy, Debug, PartialEq, Eq)]
pub enum AppendRefusal {
    Finished,
    BadKey,
    ValueTooLong,
    NoRoom,
    SumTooBig,
}

#[derive(Clone, Copy, Debug, PartialEq, Eq)]
pub enum FinishRefusal {
    Finished,
    NothingWritten,
    NoRoom,
}

#[derive(Clone, Copy, Debug, PartialEq, Eq)]
pub enum NextRefusal {
    NotFinished,
    IdsUsedUp,
}

impl AppendRefusal {
    // Document 01's number.
    pub fn number(self) -> u64
        ensures { result ≡ append_number self }
    {
        match self {
            AppendRefusal::Finished => 4,
            AppendRefusal::BadKey => 1,
            AppendRefusal::ValueTooLong => 2,
            AppendRefusal::NoRoom => 3,
            AppendRefusal::SumTooBig => 12,
        }
    }
}

impl FinishRefusal {
    // Document 01's number.
    pub fn number(self) -> u64
        ensures { result ≡ finish_number self }
    {
        match self {
            FinishRefusal::Finished => 4,
            FinishRefusal::NothingWritten => 5,
            FinishRefusal::NoRoom => 3,
        }
    }
}

impl NextRefusal {
    // Document 01's number.
    pub fn number(self) -> u64
        ensures { result ≡ next_number self }
    {
        match self {
            NextRefusal::NotFinished => 15,
            NextRefusal::IdsUsedUp => 6,
        }
    }
}
