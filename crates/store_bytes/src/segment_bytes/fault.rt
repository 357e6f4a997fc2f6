ghost use Rattle.std.specs.Prelude.{◌≡◌, Some};
ghost use Rattle.store_bytes.specs.segment_bytes.Faults.{bytes_text};
ghost use Rattle.store_bytes.specs.declared.segment_bytes.fault.BytesFault.TheVariants.{OutOfMemory};

use segment::segment_rules::BrokenRule;
use std::alloc::{AllocError, AllocFailed};
use std::error::Error;
use std::fmt;

/// Why bytes are no body: the first fault, in this order.
#[derive(Clone, Copy, Debug, PartialEq, Eq)]
pub enum BytesFault {
    /// A number does not fit: the body has to go on up to `need` bytes from its start, and there
    /// are `have`.
    Short { need: u64, have: u64 },
    /// So many bytes follow the body.
    Trailing { rest: u64 },
    /// As in [`segment::segment_rules::BrokenRule`].
    Order { list: u8, index: u32 },
    Sum { rule: u8 },
    Residue { rule: u8 },
    OutOfMemory,
}

impl From<AllocError> for BytesFault {
    ghost from_gives = { λ _ fault. fault ≡ OutOfMemory };

    fn from(_error: AllocError) -> BytesFault {
        BytesFault::OutOfMemory
    }
}

impl<T: Drop> From<AllocFailed<T>> for BytesFault {
    ghost from_gives = { λ _ fault. fault ≡ OutOfMemory };

    fn from(_error: AllocFailed<T>) -> BytesFault {
        BytesFault::OutOfMemory
    }
}

impl fmt::Display for BytesFault {
    ghost output = { λ fault. Some (bytes_text fault) };

    fn fmt<W: fmt::Write>(&self, f: &mut fmt::Formatter<W>) -> fmt::Result {
        match *self {
            BytesFault::Short { need, have } => write!(f, "ends after {have} of {need} bytes"),
            BytesFault::Trailing { rest } => write!(f, "{rest} bytes behind the body"),
            BytesFault::Order { list, index } => {
                write!(f, "{}", BrokenRule::Order { list, index })
            }
            BytesFault::Sum { rule } => write!(f, "{}", BrokenRule::Sum { rule }),
            BytesFault::Residue { rule } => write!(f, "{}", BrokenRule::Residue { rule }),
            BytesFault::OutOfMemory => f.write_str("out of memory"),
        }
    }
}

impl Error for BytesFault {}
