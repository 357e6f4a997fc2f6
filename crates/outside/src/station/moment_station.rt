ghost use Rattle.std.specs.Prelude.{◌≡◌, ◌≤◌, ◌<◌, ◌+◌, ◌^◌, [], length, slice_range, IfOk, OnOk, OnErr, IsErr, IsTrue, Contains, ◌↔◌};
ghost use Rattle.outside.specs.Fault.{HasCause, next_count};
ghost use Rattle.outside.specs.station.Station.{Overwrites, IsTornWrite, Follows, Only, SameImages, NoNew, Tells};
ghost use Rattle.outside.specs.station.Calls.{told_lines, bytes_of, first_calls, MayLeave, HadMoment, Passes};
ghost use Rattle.outside.specs.station.Moments.{may_leave-seen, had_moment-now, had_moment-only};
ghost use Rattle.outside.specs.station.Recorder.{past_of};
ghost use Rattle.outside.specs.station.MomentStation.{state_of, IsCounted, content_of, lines_told, LeavesImage};

use crate::Failed;
use crate::station::crash::Torn;
use crate::station::recorder::{Recorder, content_with};
use crate::station::{OutOfMemory, Station};
use std::alloc::{AllocError, Global};

/// A station in memory, which records all its calls. A call fails where its number, from 0 over all
/// calls, stands in a list, where a read passes the end, and where its record finds no memory. In
/// the last case it is not recorded, and the next call has its number.
#[derive(Drop)]
pub struct MomentStation {
    alloc: Global,
    recorder: Recorder,
    failing: Vec<u64>,
    faults: u64,
}

impl MomentStation {
    /// A station with this store, all of it durable, and no line told. The calls whose numbers
    /// stand in `failing` fail. It keeps `alloc` for its later calls and takes no memory here.
    pub fn new(alloc: Global, image: Vec<u8>, failing: Vec<u64>) -> MomentStation
        ensures { state_of result ≡ record {
          past = record { image = image.items; calls = [] };
          failing = failing.items;
          faults = 0;
        } }
    {
        MomentStation {
            alloc,
            recorder: Recorder::new(alloc, image),
            failing,
            faults: 0,
        }
    }

    /// All told lines, one after another.
    pub fn told(&self) -> &[u8]
        ensures { result.now ≡ bytes_of (told_lines (state_of self.now).past) }
    {
        self.recorder.told()
    }

    /// How many calls are recorded.
    pub fn calls(&self) -> u64
        ensures { result ≡ length (state_of self.now).past.calls }
    {
        self.recorder.calls()
    }

    /// An image that a crash after the first `calls` calls may leave: what stands in every range
    /// that was not synced is what `torn` says.
    pub fn crash(&self, alloc: Global, calls: u64, torn: Torn) -> Result<Vec<u8>, OutOfMemory>
        requires { calls ≤ length (state_of self.now).past.calls }
        ensures { IfOk result (λ left.
            MayLeave (first_calls calls (state_of self.now).past) left.items) }
    {
        self.recorder.crash(alloc, calls, torn)
    }

    // Whether the next call is one that fails.
    fn is_failing(&self) -> bool
        ensures { IsTrue result ↔
            Contains self.now.failing.items (length self.now.recorder.calls.items) }
    {
        let call = self.recorder.calls();
        self.failing.contains(&call)
    }

    // A call that failed.
    fn fail<T>(&mut self) -> Result<T, Failed>
        ensures failed { IsErr result }
        ensures recorder { self.new.recorder ≡ self.old.recorder }
        ensures failing { self.new.failing.items ≡ self.old.failing.items }
        ensures raised { self.new.faults ≡ next_count self.old.faults }
        ensures cause { HasCause self.old.faults self.new.faults result }
    {
        self.faults = self.faults.saturating_add(1);
        Err(Failed)
    }
}

// What a write needs: the new content, and the bytes to record.
fn content_and_copy(
    alloc: Global,
    content: &[u8],
    at: usize,
    bytes: &[u8],
) -> Result<(Vec<u8>, Vec<u8>), AllocError>
    requires { at ≤ length content.now }
    ensures { IfOk result (λ next.
        Overwrites content.now at bytes.now next.0.items × (next.1.items ≡ bytes.now)) }
{
    let next = content_with(alloc, content, at, bytes)?;
    let copy = bytes.to_vec(alloc)?;
    Ok((next, copy))
}

impl Station for MomentStation {
    ghost tells = { Unit {0} };

    ghost seen = { content_of };

    ghost told = { lines_told };

    ghost leaves = { LeavesImage };

    ghost clock = { λ s. length s.recorder.calls.items };

    ghost moments = { λ s. HadMoment (past_of s.recorder) };

    ghost faults = { λ s. s.faults };

    ghost seen_counts = { λ _ s. may_leave-seen (past_of s.recorder) s.recorder.no_gap };

    ghost counts_now = { λ _ s t c le now. had_moment-now (past_of s.recorder) t c le now };

    ghost only_now = { λ _ s lines c was. had_moment-only (past_of s.recorder) lines c was };

    fn size(&mut self) -> Result<u64, Failed>
        ensures size { Unit {0} → IfOk result (λ n. n ≡ length (content_of self.old)) }
        ensures seen { Unit {0} → content_of self.new ≡ content_of self.old }
        ensures told { Unit {0} → lines_told self.new ≡ lines_told self.old }
        ensures crash { Unit {0} →
            SameImages (LeavesImage self.old) (LeavesImage self.new) }
        ensures time { Unit {0} → Passes (past_of self.old.recorder) (past_of self.new.recorder) }
        ensures cause { HasCause self.old.faults self.new.faults result }

        ensures counted { IsCounted (state_of self.old) (state_of self.new) result }
    {
        let fails = self.is_failing();
        if !self.recorder.note() || fails {
            return self.fail();
        }
        Ok(self.recorder.content().len() as u64)
    }

    fn read_at(&mut self, at: u64, buf: &mut [u8]) -> Result<(), Failed>
        ensures bytes { Unit {0} → OnOk result
            (buf.new ≡ slice_range (content_of self.old) at (at + length buf.old)) }
        ensures within { Unit {0} → OnOk result
            (at + length buf.old ≤ length (content_of self.old)) }
        ensures seen { Unit {0} → content_of self.new ≡ content_of self.old }
        ensures told { Unit {0} → lines_told self.new ≡ lines_told self.old }
        ensures crash { Unit {0} →
            SameImages (LeavesImage self.old) (LeavesImage self.new) }
        ensures time { Unit {0} → Passes (past_of self.old.recorder) (past_of self.new.recorder) }
        ensures cause { HasCause self.old.faults self.new.faults result }

        ensures counted { IsCounted (state_of self.old) (state_of self.new) result }
        ensures past_end { length (content_of self.old) < at + length buf.old → IsErr result }
    {
        let fails = self.is_failing();
        let len = self.recorder.content().len() as u64;
        let is_past = at > len || buf.len() as u64 > len - at;
        if !self.recorder.note() || fails || is_past {
            return self.fail();
        }
        let start = at as usize;
        buf.copy_from_slice(&self.recorder.content()[start..start + buf.len()]);
        Ok(())
    }

    fn write_at(&mut self, at: u64, bytes: &[u8]) -> Result<(), Failed>
        requires place { Unit {0} → at ≤ length (content_of self.old) }
        requires room { at + length bytes.now ≤ 2 ^ 62 }
        ensures written { Unit {0} → OnOk result
            (Overwrites (content_of self.old) at bytes.now (content_of self.new)) }
        ensures torn { Unit {0} → OnErr result
            (IsTornWrite at (length bytes.now) (content_of self.old) (content_of self.new)) }
        ensures told { Unit {0} → lines_told self.new ≡ lines_told self.old }
        ensures crash { Unit {0} → Follows (IsTornWrite at (length bytes.now))
            (LeavesImage self.old) (LeavesImage self.new) }
        ensures time { Unit {0} → Passes (past_of self.old.recorder) (past_of self.new.recorder) }
        ensures cause { HasCause self.old.faults self.new.faults result }

        ensures counted { IsCounted (state_of self.old) (state_of self.new) result }
    {
        if self.is_failing() {
            self.recorder.note();
            return self.fail();
        }
        let content = self.recorder.content();
        let Ok((next, copy)) = content_and_copy(self.alloc, content, at as usize, bytes) else {
            return self.fail();
        };
        if !self.recorder.note_write(at, copy, next) {
            return self.fail();
        }
        Ok(())
    }

    fn sync(&mut self) -> Result<(), Failed>
        ensures durable { Unit {0} → OnOk result
            (Only (content_of self.old) (LeavesImage self.new)) }
        ensures seen { Unit {0} → content_of self.new ≡ content_of self.old }
        ensures told { Unit {0} → lines_told self.new ≡ lines_told self.old }
        ensures crash { Unit {0} → NoNew (LeavesImage self.old) (LeavesImage self.new) }
        ensures time { Unit {0} → Passes (past_of self.old.recorder) (past_of self.new.recorder) }
        ensures cause { HasCause self.old.faults self.new.faults result }

        ensures counted { IsCounted (state_of self.old) (state_of self.new) result }
    {
        if self.is_failing() {
            self.recorder.note();
            return self.fail();
        }
        if !self.recorder.note_sync() {
            return self.fail();
        }
        Ok(())
    }

    fn tell(&mut self, line: &[u8]) -> Result<(), Failed>
        ensures seen { Unit {0} → content_of self.new ≡ content_of self.old }
        ensures told { Unit {0} →
            Tells (lines_told self.old) line.now (lines_told self.new) result }
        ensures crash { Unit {0} →
            SameImages (LeavesImage self.old) (LeavesImage self.new) }
        ensures time { Unit {0} → Passes (past_of self.old.recorder) (past_of self.new.recorder) }
        ensures cause { HasCause self.old.faults self.new.faults result }

        ensures counted { IsCounted (state_of self.old) (state_of self.new) result }
    {
        if self.is_failing() {
            self.recorder.note();
            return self.fail();
        }
        let Ok(copy) = line.to_vec(self.alloc) else {
            return self.fail();
        };
        if !self.recorder.note_line(copy, line) {
            return self.fail();
        }
        Ok(())
    }
}
