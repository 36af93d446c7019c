// The table of parts: whether it is one, else 13; and a part moved on.
ghost use Rattle.std.specs.Prelude.{◌≡◌, ◌<◌};
ghost use Rattle.merge.specs.Parts.{inside, table_ok, taken_of};

use super::heads::Head;
use super::parts::{MergeScanner, Part};

impl Part {
    fn lies_inside(self, size: usize) -> bool
        ensures { result ≡ inside size self }
    {
        self.start <= size && self.length <= size - self.start && self.at <= self.length
    }
}

impl MergeScanner {
    // Whether the table is one for an image of that size.
    pub(crate) fn fits(self, size: usize) -> bool
        ensures { result ≡ table_ok size self }
    {
        self.count <= 16 && self.parts[..self.count].iter().all(|p| p.lies_inside(size))
    }

    // The part of an entry moved on past it.
    pub(crate) fn take(&mut self, first: Head)
        requires { first.entry.part < 16 }
        ensures { self.new ≡ taken_of self.old first.entry.part first.next }
    {
        self.parts[first.entry.part].at = first.next;
    }
}
