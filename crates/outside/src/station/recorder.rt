ghost use Rattle.std.specs.Prelude.{◌≡◌, ◌≤◌, ◌+◌, ◌++◌, [], ◌∷◌, true, length, IsTrue, IsFalse, IfOk};
ghost use Rattle.outside.specs.station.Calls.{current_image, disk_of, fresh_disk, lines_of, bytes_of, have_no_gap, PushesCall};
ghost use Rattle.outside.specs.station.Station.{Overwrites, IsTornWrite, Follows, Only, NoNew};

use crate::station::Call;
use crate::station::crash::{Torn, crash_image};
use std::alloc::{AllocError, Global};

/// All calls of a station in memory. The content is copied at the first write.
#[derive(Drop)]
pub(crate) struct Recorder {
    image: Vec<u8>,
    content: Vec<u8>,
    is_written: bool,
    told: Vec<u8>,
    calls: Vec<Call>,
    ghost content_is_seen: { current_image is_written content.items image.items
        ≡ (disk_of (fresh_disk image.items) calls.items).seen },
    ghost no_gap: { have_no_gap (fresh_disk image.items) calls.items ≡ true },
    ghost lines: { told.items ≡ bytes_of (lines_of calls.items) },
}

impl Recorder {
    ghost use Rattle.outside.specs.station.Calls.{disk, told_lines, first_calls, MayLeave, Passes};
    ghost use Rattle.outside.specs.station.Recorder.{past_of};

    pub(crate) fn new(alloc: Global, image: Vec<u8>) -> Recorder
        ensures { past_of result ≡ record { image = image.items; calls = [] } }
    {
        Recorder {
            image,
            content: Vec::new(alloc),
            is_written: false,
            told: Vec::new(alloc),
            calls: Vec::new(alloc),
        }
    }

    /// What a read gives.
    pub(crate) fn content(&self) -> &[u8]
        ensures { result.now ≡ (disk (past_of self.now)).seen }
    {
        if self.is_written {
            &self.content
        } else {
            &self.image
        }
    }

    /// All told lines.
    pub(crate) fn told(&self) -> &[u8]
        ensures { result.now ≡ bytes_of (told_lines (past_of self.now)) }
    {
        &self.told
    }

    /// How many calls are recorded.
    pub(crate) fn calls(&self) -> u64
        ensures { result ≡ length self.now.calls.items }
    {
        self.calls.len() as u64
    }

    /// An image that a crash after so many calls may leave.
    pub(crate) fn crash(&self, alloc: Global, calls: u64, torn: Torn) -> Result<Vec<u8>, AllocError>
        requires { calls ≤ length self.now.calls.items }
        ensures { IfOk result (λ left. MayLeave (first_calls calls (past_of self.now)) left.items) }
    {
        crash_image(alloc, &self.image, &self.calls[..calls as usize], torn)
    }

    /// Records a call that changes nothing. False where there is no memory.
    pub(crate) fn note(&mut self) -> bool
        ensures image { self.new.image.items ≡ self.old.image.items }
        ensures calls { IsTrue result →
            length self.new.calls.items ≡ length self.old.calls.items + 1 }
        ensures no_more { length self.new.calls.items ≤ length self.old.calls.items + 1 }
        ensures disk { disk (past_of self.new) ≡ disk (past_of self.old) }
        ensures told { told_lines (past_of self.new) ≡ told_lines (past_of self.old) }
        ensures time { Passes (past_of self.old) (past_of self.new) }
    {
        push_call(&mut self.calls, Call::Other)
    }

    /// Records a write, whose bytes and new content are handed in. False where there is no memory.
    pub(crate) fn note_write(&mut self, at: u64, copy: Vec<u8>, next: Vec<u8>) -> bool
        requires place { at ≤ length (disk (past_of self.old)).seen }
        requires next { Overwrites (disk (past_of self.old)).seen at copy.items next.items }
        ensures image { self.new.image.items ≡ self.old.image.items }
        ensures calls { IsTrue result →
            length self.new.calls.items ≡ length self.old.calls.items + 1 }
        ensures no_more { length self.new.calls.items ≤ length self.old.calls.items + 1 }
        ensures written { IsTrue result →
            Overwrites (disk (past_of self.old)).seen at copy.items (disk (past_of self.new)).seen }
        ensures unwritten { IsFalse result → disk (past_of self.new) ≡ disk (past_of self.old) }
        ensures crash { Follows (IsTornWrite at (length copy.items))
            (MayLeave (past_of self.old)) (MayLeave (past_of self.new)) }
        ensures told { told_lines (past_of self.new) ≡ told_lines (past_of self.old) }
        ensures time { Passes (past_of self.old) (past_of self.new) }
    {
        if push_call(&mut self.calls, Call::Write(at, copy)) {
            self.content = next;
            self.is_written = true;
            return true;
        }
        false
    }

    /// Records a sync. False where there is no memory.
    pub(crate) fn note_sync(&mut self) -> bool
        ensures image { self.new.image.items ≡ self.old.image.items }
        ensures calls { IsTrue result →
            length self.new.calls.items ≡ length self.old.calls.items + 1 }
        ensures no_more { length self.new.calls.items ≤ length self.old.calls.items + 1 }
        ensures seen { (disk (past_of self.new)).seen ≡ (disk (past_of self.old)).seen }
        ensures told { told_lines (past_of self.new) ≡ told_lines (past_of self.old) }
        ensures durable { IsTrue result →
            Only (disk (past_of self.old)).seen (MayLeave (past_of self.new)) }
        ensures crash { NoNew (MayLeave (past_of self.old)) (MayLeave (past_of self.new)) }
        ensures time { Passes (past_of self.old) (past_of self.new) }
    {
        push_call(&mut self.calls, Call::Sync)
    }

    /// Records a line, which is handed in twice, and tells it. False where there is no memory.
    pub(crate) fn note_line(&mut self, copy: Vec<u8>, line: &[u8]) -> bool
        requires { copy.items ≡ line.now }
        ensures image { self.new.image.items ≡ self.old.image.items }
        ensures calls { IsTrue result →
            length self.new.calls.items ≡ length self.old.calls.items + 1 }
        ensures no_more { length self.new.calls.items ≤ length self.old.calls.items + 1 }
        ensures disk { disk (past_of self.new) ≡ disk (past_of self.old) }
        ensures told { IsTrue result →
            told_lines (past_of self.new) ≡ told_lines (past_of self.old) ++ line.now ∷ [] }
        ensures untold { IsFalse result →
            told_lines (past_of self.new) ≡ told_lines (past_of self.old) }
        ensures time { Passes (past_of self.old) (past_of self.new) }
    {
        if self.told.try_reserve(line.len()).is_err() {
            return false;
        }
        if push_call(&mut self.calls, Call::Tell(copy)) {
            let _ = self.told.extend_from_slice(line);
            return true;
        }
        false
    }
}

// Records a call. False where there is no memory.
fn push_call(calls: &mut Vec<Call>, call: Call) -> bool
    ensures { PushesCall result calls.old.items calls.new.items call }
{
    match calls.push(call) {
        Ok(()) => true,
        Err(_) => false,
    }
}

/// The content with these bytes from a place on.
pub(crate) fn content_with(
    alloc: Global,
    content: &[u8],
    at: usize,
    bytes: &[u8],
) -> Result<Vec<u8>, AllocError>
    requires { at ≤ length content.now }
    ensures { IfOk result (λ next. Overwrites content.now at bytes.now next.items) }
{
    let mut next = content[..at].to_vec(alloc)?;
    next.extend_from_slice(bytes)?;
    if bytes.len() < content.len() - at {
        next.extend_from_slice(&content[at + bytes.len()..])?;
    }
    Ok(next)
}
