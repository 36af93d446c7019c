// Cut short: where reading began, the bytes needed from there, and the bytes present.
#[derive(Clone, Copy, Debug, PartialEq, Eq)]
pub struct CutShort {
    pub at: usize,
    pub needed: usize,
    pub present: usize,
}
