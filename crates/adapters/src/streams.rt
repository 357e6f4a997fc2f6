ghost use Rattle.std.specs.Prelude.{◌≡◌, ◌+◌, ◌++◌, ◌<◌, OnOk, OnErr};
ghost use Rattle.outside.specs.Sink.{AppendsPrefix};
ghost use Rattle.adapters.specs.Known.{Tells, bytes_of};

#[cfg(test)]
mod tests;

use crate::folder::READ_AHEAD;
use crate::pass_over::PassOver;
use crate::reasons::Reasons;
use outside::{Failed, Sink, Source};
use std::io;
use std::io::{ErrorKind, Read, Write};

/// An open file, or another reader, from where it stands.
#[derive(Drop)]
pub struct FileSource<F: Read + PassOver + Send + Drop> {
    file: F,
    // What the file is called, where there was memory for it.
    name: Option<String>,
    // Why the last call failed that did.
    fault: Option<io::Error>,
    pub(crate) faults: u64,
}

impl<F: Read + PassOver + Send + Drop> FileSource<F> {
    /// What this reader gives from here on, of which no call failed yet.
    pub fn new(file: F) -> FileSource<F>
        ensures file { result.file ≡ file }
        ensures faults { result.faults ≡ 0 }
    {
        FileSource::with_name(file, None)
    }

    // The same of a file with a name.
    pub(crate) fn with_name(file: F, name: Option<String>) -> FileSource<F>
        ensures file { result.file ≡ file }
        ensures faults { result.faults ≡ 0 }
    {
        FileSource {
            file,
            name,
            fault: None,
            faults: 0,
        }
    }

    // What the file is called.
    pub(crate) fn name(&self) -> &str {
        match &self.name {
            Some(name) => name.as_str(),
            None => "?",
        }
    }

    // Why the last call failed that did.
    pub(crate) fn reason(&self) -> io::Error {
        self.fault.unwrap_or(ErrorKind::Interrupted.into())
    }
}

impl<F: Read + PassOver + Send + Drop> Source for FileSource<F> {
    // Where readers of its type tell what they will give.
    ghost tells = { Tells F.remaining };

    ghost left = { λ s. bytes_of (F.remaining s.file) };

    ghost faults = { λ s. s.faults };

    ghost failed_last = { λ _. Unit {0} };

    ghost number = { λ _. 0 };

    // A read that was interrupted is tried again.
    fn take(&mut self, buf: &mut [u8]) -> Result<usize, Failed> {
        for _ in 0..u64::MAX {
            match self.file.read(buf) {
                Ok(n) => return Ok(n),
                Err(fault) if fault.kind() == ErrorKind::Interrupted => {}
                Err(fault) => {
                    self.fault = Some(fault);
                    break;
                }
            }
        }
        self.faults = self.faults.saturating_add(1);
        Err(Failed)
    }

    // What the reader can't pass over is read.
    fn skip(&mut self, most: u64) -> Result<u64, Failed> {
        match self.file.pass_over(most) {
            Ok(0) => {
                let mut buf = [0; READ_AHEAD];
                let room = most.min(READ_AHEAD as u64) as usize;
                Ok(self.take(&mut buf[..room])? as u64)
            }
            Ok(n) => Ok(n),
            Err(fault) => {
                self.fault = Some(fault);
                self.faults = self.faults.saturating_add(1);
                Err(Failed)
            }
        }
    }
}

/// An output, written at once.
#[derive(Drop)]
pub struct OutputSink<W: Write + Drop, L: Write + Drop> {
    out: W,
    name: &'static str,
    reasons: Reasons<L>,
    faults: u64,
}

impl<W: Write + Drop, L: Write + Drop> OutputSink<W, L> {
    /// An output of this name to this writer, on which no call failed yet, and where the reasons of
    /// its faults are told.
    pub fn new(out: W, name: &'static str, reasons: Reasons<L>) -> OutputSink<W, L>
        ensures out { result.out ≡ out }
        ensures faults { result.faults ≡ 0 }
    {
        OutputSink {
            out,
            name,
            reasons,
            faults: 0,
        }
    }

    // Writes the bytes, as std's `write_all` does, which doesn't say that a failure left a front of
    // them. A write that was interrupted is tried again.
    fn write(&mut self, bytes: &[u8]) -> io::Result<()>
        ensures ok { Tells W.contents → OnOk result
            (bytes_of (W.contents self.new.out) ≡ bytes_of (W.contents self.old.out) ++ bytes.now) }
        ensures failed { Tells W.contents → OnErr result (AppendsPrefix
            (bytes_of (W.contents self.old.out)) (bytes_of (W.contents self.new.out)) bytes.now) }
        ensures faults { self.new.faults ≡ self.old.faults }
    {
        let mut rest = bytes;
        for _ in 0..u64::MAX {
            if rest.is_empty() {
                return Ok(());
            }
            match self.out.write(rest) {
                Ok(0) => return Err(ErrorKind::WriteZero.into()),
                Ok(n) => rest = &rest[n..],
                Err(cause) if cause.kind() == ErrorKind::Interrupted => {}
                Err(cause) => return Err(cause),
            }
        }
        Err(ErrorKind::WriteZero.into())
    }
}

impl<W: Write + Drop, L: Write + Drop> Sink for OutputSink<W, L> {
    // Where writers of its type tell what they hold.
    ghost tells = { Tells W.contents };

    ghost written = { λ s. bytes_of (W.contents s.out) };

    ghost faults = { λ s. s.faults };

    fn put(&mut self, bytes: &[u8]) -> Result<(), Failed> {
        match self.write(bytes) {
            Ok(()) => Ok(()),
            Err(fault) => {
                self.reasons.tell(self.name, &fault);
                self.faults = self.faults.saturating_add(1);
                Err(Failed)
            }
        }
    }
}
