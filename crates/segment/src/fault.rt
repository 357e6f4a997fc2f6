ghost use Rattle.std.specs.Prelude.{◌≡◌, Some};
ghost use Rattle.segment.specs.Faults.{load_text};
ghost use Rattle.segment.specs.Loading.{fault_of};
ghost use Rattle.segment.specs.declared.fault.LoadFault.TheVariants.{OutOfMemory};

use crate::segment_rules::BrokenRule;
use std::alloc::AllocError;
use std::error::Error;
use std::fmt;

/// The first rule that parts break, as in [`crate::segment_rules::BrokenRule`], or want of memory.
#[derive(Clone, Copy, Debug, PartialEq, Eq)]
pub enum LoadFault {
    Order { list: u8, index: u32 },
    Sum { rule: u8 },
    Residue { rule: u8 },
    OutOfMemory,
}

impl From<AllocError> for LoadFault {
    ghost from_gives = { λ _ fault. fault ≡ OutOfMemory };

    fn from(_error: AllocError) -> LoadFault {
        LoadFault::OutOfMemory
    }
}

impl fmt::Display for LoadFault {
    ghost output = { λ fault. Some (load_text fault) };

    fn fmt<W: fmt::Write>(&self, f: &mut fmt::Formatter<W>) -> fmt::Result {
        match *self {
            LoadFault::Order { list, index } => {
                write!(f, "{}", BrokenRule::Order { list, index })
            }
            LoadFault::Sum { rule } => write!(f, "{}", BrokenRule::Sum { rule }),
            LoadFault::Residue { rule } => write!(f, "{}", BrokenRule::Residue { rule }),
            LoadFault::OutOfMemory => f.write_str("out of memory"),
        }
    }
}

impl Error for LoadFault {}

pub(crate) fn fault_of(rule: BrokenRule) -> LoadFault
    ensures { result ≡ fault_of rule }
{
    match rule {
        BrokenRule::Order { list, index } => LoadFault::Order { list, index },
        BrokenRule::Sum { rule } => LoadFault::Sum { rule },
        BrokenRule::Residue { rule } => LoadFault::Residue { rule },
    }
}
