ghost use Rattle.std.specs.Prelude.{◌≡◌, ◌≤◌, ◌<◌, ◌+◌, ◌-◌, ◌⊎◌, ◌++◌, [], ◌∷◌, ℕ, List, length, slice_index_or, take, Some, Err, OnOk, OnErr};
ghost use Rattle.outside.specs.Fault.{CountRose, HasCause};
ghost use Rattle.outside.specs.Sink.{AppendsPrefix};
ghost use Rattle.outside.specs.station.Station.{Image};
ghost use Rattle.segment.specs.segment_rules.Parts.{PartsValue};
ghost use Rattle.segment.specs.segment_rules.Rules.{AreSegmentParts};
ghost use Rattle.segment.specs.Parts.{parts_of};
ghost use Rattle.segment.specs.Segment.{SegmentValue, IsSegment};
ghost use Rattle.store_bytes.specs.segment_bytes.Grammar.{body_of};
ghost use Rattle.store_bytes.specs.segment_bytes.Sizes.{max_body as longest_body};
ghost use Rattle.store_bytes.specs.declared.segment_bytes.layout.Layout.TheVariants.{Two};
ghost use Rattle.segment_store.specs.Copy.{IsCopy, copy_of, written_of};
ghost use Rattle.segment_store.specs.Held.{AreHeld, ends_of};
ghost use Rattle.segment_store.specs.Image.{Reads, with_digest};
ghost use Rattle.segment_store.specs.Keeping.{IsKept, see_state};
ghost use Rattle.segment_store.specs.declared.compacting.CompactFault.TheVariants.{WriteFault, OutOfMemory};
ghost use Rattle.segment_store.specs.declared.filling.TheConstants.{FRAME_LENGTH};

use crate::filling::{FRAME_LENGTH, fill};
use crate::putting::State;
use crate::store::Store;
use outside::{Failed, Sink};
use segment::Segment;
use std::alloc::{AllocError, AllocFailed, Global};
use std::error::Error;
use std::fmt;
use store_bytes::segment_bytes::{Layout, max_body};
use store_bytes::store_head::bytes_of;

/// Why a copy was not written.
#[derive(Clone, Copy, Debug, PartialEq, Eq)]
pub enum CompactFault {
    /// The output took only a front of it.
    WriteFault,
    /// Nothing was written.
    OutOfMemory,
}

impl From<Failed> for CompactFault {
    ghost from_gives = { λ _ e. e ≡ WriteFault };

    fn from(_: Failed) -> CompactFault {
        CompactFault::WriteFault
    }
}

impl From<AllocError> for CompactFault {
    ghost from_gives = { λ _ e. e ≡ OutOfMemory };

    fn from(_: AllocError) -> CompactFault {
        CompactFault::OutOfMemory
    }
}

impl<T: Drop> From<AllocFailed<T>> for CompactFault {
    ghost from_gives = { λ _ e. e ≡ OutOfMemory };

    fn from(_: AllocFailed<T>) -> CompactFault {
        CompactFault::OutOfMemory
    }
}

impl fmt::Display for CompactFault {
    ghost use Rattle.segment_store.specs.FaultText.{compact_text};

    ghost output = { λ fault. Some (compact_text fault) };

    fn fmt<W: fmt::Write>(&self, f: &mut fmt::Formatter<W>) -> fmt::Result {
        f.write_str(match self {
            CompactFault::WriteFault => "a put failed",
            CompactFault::OutOfMemory => "out of memory",
        })
    }
}

impl Error for CompactFault {}

/// Writes a compact copy of a store: its head in version 2, one body for each gauge that has
/// samples, in order of gauge, and a closed gate. All memory is taken before anything is written.
pub fn compact_to<O: Sink>(alloc: Global, store: &Store, out: &mut O) -> Result<(), CompactFault>
    ensures ok { O.tells → OnOk result
        (O.written out.new ≡ O.written out.old ++ copy_of store.now) }
    ensures failed { O.tells → result ≡ Err WriteFault → AppendsPrefix (O.written out.old)
        (O.written out.new) (copy_of store.now) }
    ensures nothing { O.tells → result ≡ Err OutOfMemory → O.written out.new ≡ O.written out.old }
    // The copy of a store with these bodies reads with one body for each gauge, which keeps the
    // same.
    ensures copy { (result ≡ Err OutOfMemory) ⊎ ((bodies : List PartsValue) (seen : Image) →
        Reads store.now.head bodies (ends_of store.now.held) seen →
        AreHeld store.now.head.setup.grid bodies store.now.held → IsCopy store.now bodies) }
    ensures cause { result ≡ Err WriteFault →
        CountRose (O.faults out.old) (O.faults out.new) }
    ensures later { O.faults out.old ≤ O.faults out.new }
{
    copy_state(alloc, store.state(), out)
}

fn copy_state<O: Sink>(alloc: Global, state: &State, out: &mut O) -> Result<(), CompactFault>
    requires kept { IsKept state.now }
    ensures ok { O.tells → OnOk result
        (O.written out.new ≡ O.written out.old ++ copy_of (see_state state.now)) }
    ensures failed { O.tells → result ≡ Err WriteFault → AppendsPrefix (O.written out.old)
        (O.written out.new) (copy_of (see_state state.now)) }
    ensures nothing { O.tells → result ≡ Err OutOfMemory → O.written out.new ≡ O.written out.old }
    ensures copy { (result ≡ Err OutOfMemory) ⊎ ((bodies : List PartsValue) (seen : Image) →
        Reads (see_state state.now).head bodies (ends_of (see_state state.now).held) seen →
        AreHeld (see_state state.now).head.setup.grid bodies (see_state state.now).held →
        IsCopy (see_state state.now) bodies) }
    ensures cause { result ≡ Err WriteFault →
        CountRose (O.faults out.old) (O.faults out.new) }
    ensures later { O.faults out.old ≤ O.faults out.new }
{
    let held = state.held.as_slice();
    know(held);
    let head = bytes_of(alloc, Layout::Two, &state.head)?;
    let limit = max_body(Layout::Two, state.head.setup.grid.classes());
    let mut buf = vec![in alloc; 0u8; 1 + FRAME_LENGTH + limit]?;
    match write_copy(&head, held, &mut buf, out) {
        Ok(()) => Ok(()),
        Err(_) => Err(CompactFault::WriteFault),
    }
}

// What holds of every segment only a call of it tells; this costs nothing.
fn know(held: &[Segment])
    ensures rules { (g : ℕ) (d : SegmentValue) → g < length held.now →
        IsSegment (slice_index_or held.now g d) }
    ensures parts { (g : ℕ) (d : SegmentValue) → g < length held.now →
        AreSegmentParts (slice_index_or held.now g d).grid
        (parts_of (slice_index_or held.now g d)) }
{
    for gauge in 0..held.len() {
        let _grid = held[gauge].grid();
    }
}

// Writes the head without its gate, the bodies and a closed gate.
fn write_copy<O: Sink>(
    head: &[u8],
    held: &[Segment],
    buf: &mut [u8],
    out: &mut O,
) -> Result<(), Failed>
    requires head { 0 < length head.now }
    requires room { (g : ℕ) (d : SegmentValue) → g < length held.now → 1 + (FRAME_LENGTH
        + longest_body Two (slice_index_or held.now g d).grid.classes) ≤ length buf.old }
    ensures ok { O.tells → OnOk result (O.written out.new ≡ O.written out.old ++
        ((take (length head.now - 1) head.now ++ written_of held.now) ++ 0 ∷ [])) }
    ensures failed { O.tells → OnErr result (AppendsPrefix (O.written out.old) (O.written out.new)
        ((take (length head.now - 1) head.now ++ written_of held.now) ++ 0 ∷ [])) }
    ensures cause { HasCause (O.faults out.old) (O.faults out.new) result }
{
    out.put(&head[..head.len() - 1])?;
    write_bodies(held, buf, out)?;
    out.put(&[0])
}

// Writes the held segment of each gauge that has samples.
fn write_bodies<O: Sink>(held: &[Segment], buf: &mut [u8], out: &mut O) -> Result<(), Failed>
    requires room { (g : ℕ) (d : SegmentValue) → g < length held.now → 1 + (FRAME_LENGTH
        + longest_body Two (slice_index_or held.now g d).grid.classes) ≤ length buf.old }
    ensures ok { O.tells → OnOk result (O.written out.new ≡
        O.written out.old ++ written_of held.now) }
    ensures failed { O.tells → OnErr result (AppendsPrefix (O.written out.old) (O.written out.new)
        (written_of held.now)) }
    ensures cause { HasCause (O.faults out.old) (O.faults out.new) result }
{
    for gauge in 0..held.len() {
        write_body(&held[gauge], buf, out)?;
    }
    Ok(())
}

// Writes a segment as a body behind an open gate, if it has samples.
fn write_body<O: Sink>(segment: &Segment, buf: &mut [u8], out: &mut O) -> Result<(), Failed>
    requires room { 1 + (FRAME_LENGTH + longest_body Two segment.now.grid.classes)
        ≤ length buf.old }
    ensures ok { O.tells → OnOk result (O.written out.new ≡
        O.written out.old ++ written_of (segment.now ∷ [])) }
    ensures failed { O.tells → OnErr result (AppendsPrefix (O.written out.old) (O.written out.new)
        (written_of (segment.now ∷ []))) }
    ensures cause { HasCause (O.faults out.old) (O.faults out.new) result }
{
    let name = segment.name();
    if name.from >= name.to {
        return Ok(());
    }
    let n = frame(buf, segment);
    out.put(&buf[..n])
}

// Writes an open gate and the body behind it, with its length and its digest.
fn frame(buf: &mut [u8], segment: &Segment) -> usize
    requires room { 1 + (FRAME_LENGTH + longest_body Two segment.now.grid.classes)
        ≤ length buf.old }
    ensures framed { take result buf.new ≡ 1 ∷ with_digest (body_of Two (parts_of segment.now)) }
    ensures within { result ≤ length buf.new }
{
    let (gate, body) = buf.split_at_mut(1);
    gate[0] = 1;
    fill(Layout::Two, body, segment)
}
