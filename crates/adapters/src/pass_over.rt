ghost use Rattle.std.specs.Prelude.{◌≤◌, IfOk};
ghost use Rattle.std.specs.Io.KnownBytes.{ConsumesCount};

use crate::folder::READ_AHEAD;
use std::fs::File;
use std::io;
use std::io::{BufReader, Read, Seek, SeekFrom};

/// A reader that may pass over bytes without reading them.
pub trait PassOver: Read {
    /// Passes over up to `most` of the next bytes without reading them, and answers how many. Where
    /// it answers 0 they have to be read.
    fn pass_over(&mut self, most: u64) -> io::Result<u64>
        ensures within { IfOk result (λ n. n ≤ most) }
        ensures bytes { ConsumesCount (Self.remaining self.old) (Self.remaining self.new) result }
    {
        let _ = most;
        Ok(0)
    }
}

impl PassOver for File {}

impl PassOver for BufReader<File> {
    // A seek past the end of a file is done as any other. So the last of the bytes is read: it was
    // there at that moment, and so were those before it. Where it can't be read, as in a file that
    // was cut after its length was asked for, the way back is taken.
    fn pass_over(&mut self, most: u64) -> io::Result<u64> {
        let (Ok(length), Ok(at)) = (length_of(self.get_ref()), self.stream_position()) else {
            return Ok(0);
        };
        let n = length.saturating_sub(at).min(most);
        if n <= READ_AHEAD as u64 || self.seek(SeekFrom::Start(at + n - 1)).is_err() {
            return Ok(0);
        }
        if let Ok(1) = self.read(&mut [0]) {
            return Ok(n);
        }
        self.seek(SeekFrom::Start(at))?;
        Ok(0)
    }
}

// The bytes of a regular file. What a pipe or a device will give, no length says.
fn length_of(file: &File) -> io::Result<u64> {
    let kind = file.metadata()?;
    Ok(if kind.is_file() { kind.len() } else { 0 })
}
