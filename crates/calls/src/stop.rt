// Why the program stops before its input ends.
use crate::input::Malformed;
use std::io;

#[derive(Drop)]
pub enum Stop {
    Malformed,
    Write(io::Error),
}

impl From<Malformed> for Stop {
    fn from(_malformed: Malformed) -> Stop {
        Stop::Malformed
    }
}

impl From<io::Error> for Stop {
    fn from(why: io::Error) -> Stop {
        Stop::Write(why)
    }
}
