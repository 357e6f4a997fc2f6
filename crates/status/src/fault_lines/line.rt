ghost use Rattle.std.specs.Prelude.{◌≡◌, ◌≤◌, ◌<◌, ◌^◌, [], length, IfOk};
ghost use Rattle.status.specs.fault_lines.FaultLine.{fault_line};

use crate::Status;
use crate::fault_lines::text::push_status;
use crate::line_room::LineRoom;
use std::alloc::{AllocError, Global};
use std::marker::Model;

/// The bytes that a line has beside the name, at most.
pub const MAX_BYTES_BESIDE_NAME: usize = 320;

/// Room for the line of a status with a name of at most so many bytes.
#[derive(Debug, Drop)]
pub struct FaultLine {
    name_bytes: usize,
    line: LineRoom,
}

impl Model for FaultLine {
    ghost use Rattle.std.specs.Prelude.{◌≡◌, ◌+◌};
    ghost use Rattle.status.specs.fault_lines.Room.{FaultLineValue};
    ghost use Rattle.status.specs.declared.fault_lines.line.TheConstants.{MAX_BYTES_BESIDE_NAME};

    ghost Value = { FaultLineValue };

    ghost view = { λ l. record { name_bytes = l.name_bytes; bytes = l.line.bytes } };

    ghost invariant = { λ l. l.line.room ≡ MAX_BYTES_BESIDE_NAME + l.name_bytes };
}

impl FaultLine {
    /// Takes the room, for names of so many bytes. Nothing is written. Below 2^63 the length of the
    /// longest line fits a `usize`; a name of a site is far shorter.
    pub fn new(alloc: Global, name_bytes: usize) -> Result<FaultLine, AllocError>
        requires { name_bytes < 2 ^ 63 }
        ensures { IfOk result (λ line. line ≡ record { name_bytes = name_bytes; bytes = [] }) }
    {
        Ok(FaultLine {
            name_bytes,
            line: LineRoom::new(alloc, MAX_BYTES_BESIDE_NAME + name_bytes)?,
        })
    }

    /// Writes the line of a status. It takes no memory.
    pub fn write(&mut self, status: Status, name: &str)
        requires { length name.now ≤ self.old.name_bytes }
        ensures { self.new ≡ record self.old { bytes = fault_line status name.now } }
    {
        self.line.clear();
        push_status(&mut self.line, status, name.as_bytes());
    }

    /// The line that was written last.
    pub fn bytes(&self) -> &[u8]
        ensures { result.now ≡ self.now.bytes }
    {
        self.line.bytes()
    }
}
