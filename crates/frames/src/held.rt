// A scanner that keeps hold of the file it reads: few thin functions over the step.
ghost use Rattle.std.specs.Prelude.{◌≡◌};
ghost use Rattle.frames.specs.Scan.{going, step_of};
ghost use Rattle.frames.specs.Held.{holding};

use super::scanner::{Scanned, Scanner};

// The file, and where in it the scan stands: document 01's form, a slice and a position.
#[derive(Clone, Copy)]
pub struct FileScanner<'a> {
    pub file: &'a [u8],
    pub scanner: Scanner,
}

impl<'a> FileScanner<'a> {
    // At the file's first byte.
    pub fn new(file: &'a [u8]) -> FileScanner<'a>
        ensures { result ≡ holding file.entry (going 0) }
    {
        FileScanner {
            file,
            scanner: Scanner::new(),
        }
    }

    // The answer of a step from where it stands; the scanner in the answer is where to move.
    pub fn next(self) -> Scanned
        ensures { result ≡ step_of self.entry.file.now self.entry.scanner }
    {
        self.scanner.step(self.file)
    }

    // The same file, read from another place.
    pub fn moved(self, scanner: Scanner) -> FileScanner<'a>
        ensures { result ≡ holding self.entry.file scanner }
    {
        FileScanner { scanner, ..self }
    }

    // The place of the byte that it reads next.
    pub fn at(self) -> usize
        ensures { result ≡ self.entry.scanner.at }
    {
        self.scanner.at
    }
}

// One step of a scanner that holds its file, for a caller that has only the file.
pub fn held_step(file: &[u8], scanner: Scanner) -> Scanned
    ensures { result ≡ step_of file.now scanner }
{
    FileScanner::new(file).moved(scanner).next()
}
