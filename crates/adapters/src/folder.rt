ghost use Rattle.std.specs.Prelude.{◌≡◌, ◌+◌, ◌<◌, None};

#[cfg(test)]
mod tests;

use crate::reasons::Reasons;
use crate::streams::FileSource;
use outside::{Failed, Site};
use std::fs::File;
use std::io;
use std::io::{BufReader, ErrorKind, Write};
use std::rt::Files;

// What is read ahead of a recording, in bytes: blocks are read in such pieces, however small they
// are.
pub(crate) const READ_AHEAD: usize = 65536;

// Opens a file that is read ahead, or is not where there is no memory for that.
fn open_ahead<R: Files<File = File> + AllocGlobal>(
    rt: &R,
    name: &str,
) -> io::Result<BufReader<File>> {
    match BufReader::with_capacity(rt.alloc(), READ_AHEAD, File::open(rt, name)?) {
        Err(fault) if fault.kind() == ErrorKind::OutOfMemory => {
            BufReader::with_capacity(rt.alloc(), 0, File::open(rt, name)?)
        }
        opened => opened,
    }
}

/// The files of the current folder. A name is a path. Of each that is out 64 KiB are read ahead.
#[derive(Drop)]
pub struct FolderSite<'a, R: Files<File = File> + AllocGlobal, W: Write + Drop> {
    rt: &'a R,
    reasons: Reasons<W>,
    out: u64,
    faults: u64,
}

impl<'a, R: Files<File = File> + AllocGlobal, W: Write + Drop> FolderSite<'a, R, W> {
    /// The current folder, of which no source is out, and where the reasons of its files' faults
    /// are told. Why a source failed is told when it is given back: it may be read beside others.
    pub fn new(rt: &'a R, reasons: Reasons<W>) -> FolderSite<'a, R, W>
        ensures out { result.out ≡ 0 }
        ensures faults { result.faults ≡ 0 }
    {
        FolderSite {
            rt,
            reasons,
            out: 0,
            faults: 0,
        }
    }
}

impl<'a, R: Files<File = File> + AllocGlobal, W: Write + Drop> Site for FolderSite<'a, R, W> {
    type Src = FileSource<BufReader<File>>;

    ghost tells = { ⊥ };

    ghost files = { λ _ _. None };

    ghost names_asked = { λ _ _. Unit {0} };

    ghost out = { λ s. s.out };

    ghost faults = { λ s. s.faults };

    fn fetch(&mut self, name: &str) -> Result<FileSource<BufReader<File>>, Failed> {
        match open_ahead(self.rt, name) {
            Ok(file) => {
                self.out += 1;
                // Without memory for its name the file is read all the same.
                Ok(FileSource::with_name(file, name.to_string(self.rt.alloc()).ok()))
            }
            Err(fault) => {
                self.reasons.tell(name, &fault);
                self.faults = self.faults.saturating_add(1);
                Err(Failed)
            }
        }
    }

    fn give_back(&mut self, src: FileSource<BufReader<File>>) {
        if src.faults > 0 {
            self.reasons.tell(src.name(), &src.reason());
            self.faults = self.faults.saturating_add(1);
        }
        self.out -= 1;
    }
}
