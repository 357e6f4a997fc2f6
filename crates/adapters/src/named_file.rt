ghost use Rattle.std.specs.Prelude.{◌≡◌, []};
ghost use Rattle.std.specs.Io.{ReadsAtMost};

#[cfg(test)]
mod tests;

use crate::reasons::Reasons;
use crate::streams::FileSource;
use outside::{Failed, Source};
use std::fs::File;
use std::io;
use std::io::{ErrorKind, Stderr};

/// A file of the current folder, opened when the first bytes are taken.
#[derive(Drop)]
pub struct NamedFile<'a> {
    rt: &'a HostRuntime,
    name: &'static str,
    source: Option<FileSource<File>>,
    reasons: Reasons<Stderr>,
    faults: u64,
}

impl<'a> NamedFile<'a> {
    /// The file of this name, which is not opened yet, and where the reasons of its faults are
    /// told.
    pub fn new(rt: &'a HostRuntime, name: &'static str, reasons: Reasons<Stderr>) -> NamedFile<'a>
        ensures name { result.name ≡ name.entry }
        ensures faults { result.faults ≡ 0 }
    {
        NamedFile {
            rt,
            name,
            source: None,
            reasons,
            faults: 0,
        }
    }

    // Opens the file, if it is not open yet.
    fn open(&mut self) -> io::Result<()>
        ensures { self.new.faults ≡ self.old.faults }
    {
        if self.source.is_none() {
            self.source = Some(FileSource::new(File::open(self.rt, self.name)?));
        }
        Ok(())
    }

    fn take_some(&mut self, buf: &mut [u8]) -> io::Result<usize>
        ensures bound { ReadsAtMost result buf.new }
        ensures faults { self.new.faults ≡ self.old.faults }
    {
        self.open()?;
        match &mut self.source {
            Some(source) => match source.take(buf) {
                Ok(n) => Ok(n),
                Err(Failed) => Err(source.reason()),
            },
            None => Err(ErrorKind::NotFound.into()),
        }
    }
}

impl<'a> Source for NamedFile<'a> {
    ghost tells = { ⊥ };

    ghost left = { λ _. [] };

    ghost faults = { λ s. s.faults };

    ghost failed_last = { λ _. Unit {0} };

    ghost number = { λ _. 0 };

    fn take(&mut self, buf: &mut [u8]) -> Result<usize, Failed> {
        match self.take_some(buf) {
            Ok(n) => Ok(n),
            Err(fault) => {
                self.reasons.tell(self.name, &fault);
                self.faults = self.faults.saturating_add(1);
                Err(Failed)
            }
        }
    }
}
