ghost use Rattle.std.specs.Prelude.{◌≡◌};
ghost use Rattle.status.specs.Refused.{store_status};

use crate::status::{Status, StoreFault};
use segment_store::ResumeFault;

/// The answer for a store that was not resumed.
pub fn status_of(fault: ResumeFault) -> Status
    ensures { result ≡ store_status fault }
{
    match fault {
        ResumeFault::NotAStore => Status::Store(StoreFault::NotAStore),
        ResumeFault::Version(version) => Status::Store(StoreFault::Version(version)),
        ResumeFault::Differs { field, kept, found } => {
            Status::Store(StoreFault::Differs { field, kept, found })
        }
        ResumeFault::Damaged { index, damage } => {
            Status::Store(StoreFault::Damaged { index, damage })
        }
        ResumeFault::DiskFault => Status::DiskFault,
        ResumeFault::OutOfMemory => Status::OutOfMemory,
    }
}
