ghost use Rattle.std.specs.Prelude.{◌≡◌};
ghost use Rattle.status.specs.RecordingFaults.{recording_fault_of};

use crate::status::RecordingFault;
use recording::HeadFault;

/// What is wrong with a recording whose head has this fault. After a failed read it is None, since
/// that tells nothing of the recording.
pub fn recording_fault_of(fault: HeadFault) -> Option<RecordingFault>
    ensures { result ≡ recording_fault_of fault }
{
    match fault {
        HeadFault::Short => Some(RecordingFault::Short),
        HeadFault::Magic => Some(RecordingFault::Magic),
        HeadFault::Version(version) => Some(RecordingFault::Version(version)),
        HeadFault::NotZero => Some(RecordingFault::NotZero),
        HeadFault::ReadFault => None,
    }
}
