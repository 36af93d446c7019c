// The parts of an image, and the state of a merge over them.
ghost use Rattle.std.specs.Prelude.{◌≡◌};
ghost use Rattle.merge.specs.Parts.{start_of};

// A part of the image: where it starts, its length, the id of the file that it is, and the position in it.
#[derive(Clone, Copy, PartialEq, Eq)]
pub struct Part {
    pub start: usize,
    pub length: usize,
    pub file: u64,
    pub at: usize,
}

// The parts from 0 up to `count`; those beyond are not looked at. The memory is fixed, and a count above 16 may come in: `next` refuses it by 13.
#[derive(Clone, Copy, PartialEq, Eq)]
pub struct MergeScanner {
    pub count: usize,
    pub parts: [Part; 16],
}

impl MergeScanner {
    // A merge of the first `count` parts, each from its start.
    pub fn start(parts: [Part; 16], count: usize) -> MergeScanner
        ensures { result ≡ start_of count parts }
    {
        MergeScanner {
            count,
            parts: parts.map(|p| Part { at: 0, ..p }),
        }
    }
}
