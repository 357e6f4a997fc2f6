ghost use Rattle.std.specs.Prelude.{◌≡◌, ◌≢◌, ◌≤◌, Some, Err, OnOk};
ghost use Rattle.outside.specs.Fault.{CountRose};
ghost use Rattle.site_config.specs.recorded.Recorded.{body_in};
ghost use Rattle.site_lanes.specs.Opening.{fault_of, open_fault, IsOpeningAnswer, IsBehind};
ghost use Rattle.site_lanes.specs.declared.opening.OpenFault.TheVariants.{ReadFault};

use outside::Source;
use recording::{FillEnd, Head, HeadFault, read_head, skip};
use status::{RecordingFault, recording_fault_of};
use std::error::Error;
use std::fmt;

/// Why a recording can't be counted.
#[derive(Clone, Copy, Debug, PartialEq, Eq)]
pub enum OpenFault {
    /// It is refused.
    Recording(RecordingFault),
    /// A read failed.
    ReadFault,
}

impl fmt::Display for OpenFault {
    ghost use Rattle.site_lanes.specs.FaultText.{open_fault_text};

    ghost output = { λ fault. Some (open_fault_text fault) };

    fn fmt<W: fmt::Write>(&self, f: &mut fmt::Formatter<W>) -> fmt::Result {
        match self {
            OpenFault::Recording(fault) => write!(f, "{fault}"),
            OpenFault::ReadFault => f.write_str("a read failed"),
        }
    }
}

impl Error for OpenFault {}

fn open_fault(fault: HeadFault) -> OpenFault
    ensures { result ≡ open_fault fault }
{
    match recording_fault_of(fault) {
        Some(fault) => OpenFault::Recording(fault),
        None => OpenFault::ReadFault,
    }
}

/// Reads the head of a recording, compares its id and its period with those of `kept`, and skips
/// `held` samples, in this order.
pub fn open_recording<S: Source>(src: &mut S, kept: &Head, held: u64) -> Result<(), OpenFault>
    ensures ok { S.tells → OnOk result
        (IsBehind held (body_in (Some (S.left src.old))) (S.left src.new)) }
    ensures answer { S.tells → IsOpeningAnswer (fault_of kept.now held (S.left src.old)) result }
    ensures cause { result ≡ Err ReadFault → CountRose (S.faults src.old) (S.faults src.new) }
    ensures steady { result ≢ Err ReadFault → S.faults src.new ≡ S.faults src.old }
    ensures later { S.faults src.old ≤ S.faults src.new }
{
    let head = match read_head(src) {
        Ok(head) => head,
        Err(fault) => return Err(open_fault(fault)),
    };
    if head.id != kept.id {
        return Err(OpenFault::Recording(RecordingFault::Id {
            kept: kept.id,
            found: head.id,
        }));
    }
    if head.period_us != kept.period_us {
        return Err(OpenFault::Recording(RecordingFault::Period {
            kept: kept.period_us,
            found: head.period_us,
        }));
    }
    let skipped = skip(src, held);
    match skipped.end {
        FillEnd::More => Ok(()),
        FillEnd::Failed => Err(OpenFault::ReadFault),
        _ => Err(OpenFault::Recording(RecordingFault::Fewer {
            held,
            there: skipped.n,
        })),
    }
}
