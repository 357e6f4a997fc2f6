ghost use Rattle.std.specs.Prelude.{◌≡◌, [], ⊤, false};
ghost use Rattle.outside.specs.Fault.{HasCause};

#[cfg(test)]
mod tests;

use crate::reasons::Reasons;
use crate::store_access::StoreAccess;
use crate::store_opening::{open_store, sync_found};
use outside::Failed;
use outside::station::Station;
use std::fs::File;
use std::io;
use std::io::{ErrorKind, Write};
use std::os::unix::fs::FileExt;
use std::rt::Files;

// A store's file in the current folder. It is opened at its first use, as the command needs it, and
// then held.
#[derive(Drop)]
struct StoreFile<'a, R: Files<File = File>> {
    rt: &'a R,
    name: &'static str,
    access: StoreAccess,
    file: Option<File>,
    // Whether the folder was synced, so that the file keeps its name.
    is_named: bool,
}

impl<'a, R: Files<File = File>> StoreFile<'a, R> {
    // Opens the file, if it isn't open yet and is there or is to be made.
    fn open(&mut self) -> io::Result<()> {
        if self.file.is_none() {
            self.file = open_store(self.rt, self.name, self.access)?;
        }
        Ok(())
    }

    fn length(&mut self) -> io::Result<u64> {
        self.open()?;
        match &self.file {
            Some(file) => Ok(file.metadata()?.len()),
            None => Ok(0),
        }
    }

    fn read(&mut self, at: u64, buf: &mut [u8]) -> io::Result<()> {
        self.open()?;
        match &self.file {
            Some(file) => file.read_exact_at(buf, at),
            None => Err(ErrorKind::NotFound.into()),
        }
    }

    fn write(&mut self, at: u64, bytes: &[u8]) -> io::Result<()> {
        self.open()?;
        match &self.file {
            Some(file) => file.write_all_at(bytes, at),
            None => Err(ErrorKind::NotFound.into()),
        }
    }

    fn flush(&mut self) -> io::Result<()> {
        self.open()?;
        let Some(file) = &self.file else {
            return Ok(());
        };
        if self.access == StoreAccess::Read {
            return sync_found(file);
        }
        file.sync_all()?;
        if !self.is_named {
            File::open(self.rt, ".")?.sync_all()?;
            self.is_named = true;
        }
        Ok(())
    }
}

/// The store in a file of the current folder, and the line to the operator. The file is opened at
/// its first use, as the command needs it, and then held until the station is dropped.
#[derive(Drop)]
pub struct FileStation<'a, R: Files<File = File>, W: Write + Drop> {
    store: StoreFile<'a, R>,
    line: W,
    reasons: Reasons<W>,
    faults: u64,
}

impl<'a, R: Files<File = File>, W: Write + Drop> FileStation<'a, R, W> {
    /// The store in the file of this name, which is not opened yet, the line to the operator, and
    /// where the reasons of the file's faults are told.
    pub fn new(
        rt: &'a R,
        name: &'static str,
        access: StoreAccess,
        line: W,
        reasons: Reasons<W>,
    ) -> FileStation<'a, R, W>
        ensures name { result.store.name ≡ name.entry }
        ensures access { result.store.access ≡ access }
        ensures unnamed { result.store.is_named ≡ false }
        ensures line { result.line ≡ line }
        ensures faults { result.faults ≡ 0 }
    {
        let store = StoreFile {
            rt,
            name,
            access,
            file: None,
            is_named: false,
        };
        FileStation {
            store,
            line,
            reasons,
            faults: 0,
        }
    }

    // Counts a call on the file that failed, and tells why.
    fn count_fault<T>(&mut self, answer: io::Result<T>) -> Result<T, Failed>
        ensures { HasCause self.old.faults self.new.faults result }
    {
        match answer {
            Ok(value) => Ok(value),
            Err(fault) => {
                self.reasons.tell(self.store.name, &fault);
                self.faults = self.faults.saturating_add(1);
                Err(Failed)
            }
        }
    }
}

impl<'a, R: Files<File = File>, W: Write + Drop> Station for FileStation<'a, R, W> {
    ghost tells = { ⊥ };

    ghost seen = { λ _. [] };

    ghost told = { λ _. [] };

    ghost leaves = { λ _ _. ⊤ };

    ghost clock = { λ _. 0 };

    ghost moments = { λ _ _ _ _. ⊤ };

    ghost faults = { λ s. s.faults };

    ghost seen_counts = { λ none. absurd none };

    ghost counts_now = { λ none. absurd none };

    ghost only_now = { λ none. absurd none };

    fn size(&mut self) -> Result<u64, Failed> {
        let answer = self.store.length();
        self.count_fault(answer)
    }

    fn read_at(&mut self, at: u64, buf: &mut [u8]) -> Result<(), Failed> {
        let answer = self.store.read(at, buf);
        self.count_fault(answer)
    }

    fn write_at(&mut self, at: u64, bytes: &[u8]) -> Result<(), Failed> {
        let answer = self.store.write(at, bytes);
        self.count_fault(answer)
    }

    fn sync(&mut self) -> Result<(), Failed> {
        let answer = self.store.flush();
        self.count_fault(answer)
    }

    // Why a line wasn't told could only be told on the line that failed.
    fn tell(&mut self, line: &[u8]) -> Result<(), Failed> {
        let told = self.line.write_all(line);
        if told.is_err() {
            self.faults = self.faults.saturating_add(1);
            return Err(Failed);
        }
        Ok(())
    }
}
