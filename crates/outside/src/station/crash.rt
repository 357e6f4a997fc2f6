ghost use Rattle.std.specs.Prelude.{◌≡◌, length, true, IfOk, OnOk};
ghost use Rattle.outside.specs.station.Station.{IsTornWrite};
ghost use Rattle.outside.specs.station.Calls.{disk_of, fresh_disk, have_no_gap, DiskMayLeave};
ghost use Rattle.outside.specs.station.Replay.{Replays, IsPlaced};

use crate::station::Call;
use crate::station::recorder::content_with;
use std::alloc::{AllocError, Global};

/// What a crash leaves in every range that was written and not synced.
#[derive(Clone, Copy, Debug, PartialEq, Eq)]
pub enum Torn {
    /// The old bytes, and the old length.
    Old,
    /// The new bytes, and the new length.
    New,
    /// This byte in each place, and the new length.
    Fill(u8),
}

// A write that is torn so.
fn tear(
    alloc: Global,
    torn: Torn,
    at: usize,
    bytes: &[u8],
    left: &mut Vec<u8>,
) -> Result<(), AllocError>
    ensures { OnOk result (IsTornWrite at (length bytes.now) left.old.items left.new.items) }
{
    // A write behind one that left the old length finds no place.
    if at > left.len() {
        return Ok(());
    }
    match torn {
        Torn::Old => {}
        Torn::New => *left = content_with(alloc, left.as_slice(), at, bytes)?,
        Torn::Fill(byte) => {
            let filled = vec![in alloc; byte; bytes.len()]?;
            *left = content_with(alloc, left.as_slice(), at, filled.as_slice())?;
        }
    }
    Ok(())
}

// One call more: what a read gives, and what the crash leaves.
fn replay(
    alloc: Global,
    call: &Call,
    torn: Torn,
    content: &mut Vec<u8>,
    left: &mut Vec<u8>,
) -> Result<(), AllocError>
    requires { IsPlaced content.old.items call.now }
    ensures { OnOk result (Replays call.now
        content.old.items content.new.items left.old.items left.new.items) }
{
    match call {
        Call::Other => Ok(()),
        Call::Tell(_) => Ok(()),
        Call::Sync => {
            *left = content.as_slice().to_vec(alloc)?;
            Ok(())
        }
        Call::Write(at, bytes) => {
            let start = *at as usize;
            tear(alloc, torn, start, bytes.as_slice(), left)?;
            *content = content_with(alloc, content.as_slice(), start, bytes.as_slice())?;
            Ok(())
        }
    }
}

/// An image that a crash after these calls may leave.
pub(crate) fn crash_image(
    alloc: Global,
    image: &[u8],
    calls: &[Call],
    torn: Torn,
) -> Result<Vec<u8>, AllocError>
    requires { have_no_gap (fresh_disk image.now) calls.now ≡ true }
    ensures { IfOk result (λ left.
        DiskMayLeave (disk_of (fresh_disk image.now) calls.now) left.items) }
{
    let mut content = image.to_vec(alloc)?;
    let mut left = image.to_vec(alloc)?;
    for call in calls {
        replay(alloc, call, torn, &mut content, &mut left)?;
    }
    Ok(left)
}
