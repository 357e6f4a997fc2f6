ghost use Rattle.std.specs.Prelude.{◌≡◌, Some};
ghost use Rattle.file_commands.specs.declared.file_tasks.refusal.Refusal.TheVariants.{OutOfMemory};

use recording::HeadFault;
use status::{RecordingFault, Status, recording_fault_of};
use std::alloc::AllocError;
use std::error::Error;
use std::fmt;

/// Why a recording is refused, or can't be read.
#[derive(Clone, Copy, Debug, PartialEq, Eq)]
pub enum Refusal {
    /// Its head has a fault.
    Head(RecordingFault),
    /// So many bytes stand behind its last whole sample: 1, 2 or 3.
    Torn(u8),
    /// It has more than 2^40 - 1 samples.
    TooLong,
    /// The source failed.
    ReadFault,
    OutOfMemory,
}

impl Refusal {
    ghost use Rattle.file_commands.specs.file_tasks.Answer.{refused_status};

    /// What is answered, where the recording is that of this gauge.
    pub fn status(self, gauge: u16) -> Status
        ensures { result ≡ refused_status gauge self }
    {
        match self {
            Refusal::Head(fault) => Status::Recording { gauge, fault },
            Refusal::Torn(bytes) => Status::Torn { gauge, bytes },
            Refusal::TooLong => Status::TooLong { gauge },
            Refusal::ReadFault => Status::ReadFault,
            Refusal::OutOfMemory => Status::OutOfMemory,
        }
    }
}

impl From<HeadFault> for Refusal {
    ghost use Rattle.file_commands.specs.file_tasks.Answer.{refusal_of};

    ghost from_gives = { λ fault refusal. refusal ≡ refusal_of fault };

    fn from(fault: HeadFault) -> Refusal {
        match recording_fault_of(fault) {
            Some(fault) => Refusal::Head(fault),
            None => Refusal::ReadFault,
        }
    }
}

impl From<AllocError> for Refusal {
    ghost from_gives = { λ _ refusal. refusal ≡ OutOfMemory };

    fn from(_: AllocError) -> Refusal {
        Refusal::OutOfMemory
    }
}

impl fmt::Display for Refusal {
    ghost use Rattle.file_commands.specs.file_tasks.FaultText.{refusal_text};

    ghost output = { λ refusal. Some (refusal_text refusal) };

    fn fmt<W: fmt::Write>(&self, f: &mut fmt::Formatter<W>) -> fmt::Result {
        match self {
            Refusal::Head(fault) => write!(f, "{fault}"),
            Refusal::Torn(bytes) => write!(f, "ends in {bytes} odd bytes"),
            Refusal::TooLong => f.write_str("too long"),
            Refusal::ReadFault => f.write_str("a read failed"),
            Refusal::OutOfMemory => f.write_str("out of memory"),
        }
    }
}

impl Error for Refusal {}
