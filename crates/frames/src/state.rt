// The state of a frame writer.
use super::place::Place;

// A file being written: where the next frame goes, the totals so far, and where the first and the last key lie.
#[derive(Clone, Copy, Debug, PartialEq, Eq)]
pub struct Writer {
    pub id: u64,
    pub offset: usize,
    pub items: u64,
    pub disk: u64,
    pub stated: u64,
    pub target: u64,
    // Whether META is written. A caller may hand in either, with any counts.
    pub finished: bool,
    pub first: Place,
    pub last: Place,
}
