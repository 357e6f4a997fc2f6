ghost use Rattle.std.specs.Prelude.{◌≡◌, ◌<◌, ◌≤◌, ◌+◌, ◌^◌, length, slice_index, slice_range, take, Err, IfOk, IfErr, OnOk};
ghost use Rattle.segment.specs.Parts.{parts_of};
ghost use Rattle.outside.specs.Fault.{CountRose, HasCause};
ghost use Rattle.store_bytes.specs.declared.segment_bytes.layout.Layout.TheVariants.{One};
ghost use Rattle.segment_store.specs.Image.{IsNext, ends_after};
ghost use Rattle.segment_store.specs.Quiet.{StaysQuiet};
ghost use Rattle.segment_store.specs.Resuming.{Finds, HasRoom, TellsAs, Walks, EndsWalkAs, length_at};
ghost use Rattle.segment_store.specs.Visiting.{BegunFrom, FoundFrom};
ghost use Rattle.segment_store.specs.Places.{IsStep, IsNear};
ghost use Rattle.segment_store.specs.declared.damage.Stop.TheVariants.{Disk};
ghost use Rattle.std.specs.Int.{w32, to_be_bytes, from_be_bytes};
ghost use Rattle.store_bytes.specs.declared.segment_bytes.layout.TheConstants.{MAX_CLASSES_ONE};
ghost use Rattle.segment_store.specs.declared.filling.TheConstants.{FRAME_LENGTH};

use crate::checking::{Digests, check, digest_of};
use crate::damage::{Damage, Stop};
use crate::filling::FRAME_LENGTH;
use crate::visiting::Visitor;
use calibration::Setup;
use outside::Failed;
use outside::station::Station;
use segment::Segment;
use std::alloc::Global;
use store_bytes::segment_bytes::Layout;

// What stands behind a body up to the next one's length: its digest, and a gate.
const BEHIND: usize = 33;

// The number in a field of length.
fn length_of(field: &[u8]) -> u32
    requires { length field.now ≡ 4 }
    ensures value { result ≡ from_be_bytes w32 field.now }
    ensures spelled { to_be_bytes w32 result ≡ field.now }
{
    u32::from_be_bytes([field[0], field[1], field[2], field[3]])
}

// What each body of a walk is read into: its bytes, and the segment that they are.
#[derive(Drop)]
pub(crate) struct Scratch {
    pub(crate) buf: Vec<u8>,
    pub(crate) segment: Segment,
}

// Where the bodies of a store stand: their layout, how long one may be, where the first gate
// stands, and the size that the store had when the walk began.
#[derive(Clone, Copy)]
pub(crate) struct Stretch {
    pub(crate) layout: Layout,
    pub(crate) limit: usize,
    pub(crate) start: u64,
    pub(crate) size: u64,
}

// The place and the byte of the gate behind a body.
#[derive(Clone, Copy)]
struct Stored {
    next: u64,
    gate: u8,
}

// The digest behind a body.
fn digest_in(bytes: &[u8]) -> [u8; 32]
    requires { 32 ≤ length bytes.now }
    ensures { result ≡ take 32 bytes.now }
{
    let mut digest = [0u8; 32];
    digest.copy_from_slice(&bytes[..32]);
    digest
}

// Reads so many bytes from a place on to the front of a buffer.
fn read_front<K: Station>(
    station: &mut K,
    at: u64,
    buf: &mut [u8],
    len: usize,
) -> Result<(), Failed>
    requires room { len ≤ length buf.old }
    ensures bytes { K.tells → OnOk result
        (take len buf.new ≡ slice_range (K.seen station.old) at (at + len)) }
    ensures cause { HasCause (K.faults station.old) (K.faults station.new) result }
    ensures quiet { K.tells → StaysQuiet ⟦<K as Station>⟧ station.old station.new }
{
    let (front, _) = buf.split_at_mut(len);
    station.read_at(at, front)
}

// Reads the body whose open gate stands there in a store of this size, and tells the next gate
// too, which is read with the body: a read of the station costs more than the bytes do.
fn stored_body<K: Station>(
    alloc: Global,
    station: &mut K,
    setup: &Setup,
    stretch: Stretch,
    ends: &[u64],
    at: u64,
    scratch: &mut Scratch,
) -> Result<Stored, Stop>
    requires narrow { stretch.layout ≡ One → setup.now.grid.classes ≤ MAX_CLASSES_ONE }
    requires gauges { length ends.now ≡ length setup.now.gains }
    requires size { K.tells → stretch.size ≡ length (K.seen station.old) }
    requires at { at ≤ stretch.size }
    requires few { stretch.limit < 2 ^ 32 }
    requires room { HasRoom setup.now stretch.limit scratch.old }
    ensures finds { K.tells → TellsAs (λ _. parts_of scratch.new.segment)
        (Finds stretch.layout setup.now stretch.limit (K.seen station.old) ends.now at) result }
    ensures gate { K.tells → IfOk result (λ x.
        x.next ≡ at + length_at (K.seen station.old) at + FRAME_LENGTH) }
    ensures gate_byte { K.tells → IfOk result (λ x.
        x.gate ≡ slice_index (K.seen station.old) x.next) }
    ensures ahead { IfOk result (λ x. (at < x.next) × (x.next < stretch.size)) }
    ensures next { OnOk result (IsNext setup.now ends.now (parts_of scratch.new.segment)) }
    ensures step { IfOk result (λ x.
        IsStep ends.now at (parts_of scratch.new.segment) x.next) }
    ensures room { HasRoom setup.now stretch.limit scratch.new }
    ensures cause { result ≡ Err Disk →
        CountRose (K.faults station.old) (K.faults station.new) }
    ensures quiet { K.tells → StaysQuiet ⟦<K as Station>⟧ station.old station.new }
    ensures later { K.faults station.old ≤ K.faults station.new }
{
    let size = stretch.size;
    if size - at < 5 {
        return Err(Stop::Damaged(Damage::Cut { size }));
    }
    let mut field = [0u8; 4];
    station.read_at(at + 1, &mut field)?;
    let len = length_of(&field);
    if len as usize > stretch.limit {
        return Err(Stop::Damaged(Damage::Length(len)));
    }
    if size - at < len as u64 + (FRAME_LENGTH + 1) as u64 {
        return Err(Stop::Damaged(Damage::Cut { size }));
    }
    let total = len as usize + BEHIND;
    read_front(station, at + 5, &mut scratch.buf, total)?;
    let (body, rest) = scratch.buf[..total].split_at(len as usize);
    let kept = digest_in(rest);
    let gate = rest[32];
    let found = digest_of(&field, body);
    let digests = Digests { kept, found };
    match check(
        alloc,
        stretch.layout,
        setup,
        ends,
        body,
        digests,
        &mut scratch.segment,
    ) {
        Ok(()) => Ok(Stored {
            next: at + FRAME_LENGTH as u64 + len as u64,
            gate,
        }),
        Err(stop) => Err(stop),
    }
}

// The body whose open gate stands there, and the next gate's place. Where the size that was asked
// at the start doesn't reach to its end, the size is asked again before that is told: another
// program may have stored the body since, and a gate is opened only when its body is there.
fn next_body<K: Station>(
    alloc: Global,
    station: &mut K,
    setup: &Setup,
    stretch: Stretch,
    ends: &[u64],
    at: u64,
    scratch: &mut Scratch,
) -> Result<Stored, Stop>
    requires narrow { stretch.layout ≡ One → setup.now.grid.classes ≤ MAX_CLASSES_ONE }
    requires gauges { length ends.now ≡ length setup.now.gains }
    requires size { K.tells → stretch.size ≡ length (K.seen station.old) }
    requires few { stretch.limit < 2 ^ 32 }
    requires room { HasRoom setup.now stretch.limit scratch.old }
    ensures finds { K.tells → TellsAs (λ _. parts_of scratch.new.segment)
        (Finds stretch.layout setup.now stretch.limit (K.seen station.old) ends.now at) result }
    ensures gate { K.tells → IfOk result (λ x.
        x.next ≡ at + length_at (K.seen station.old) at + FRAME_LENGTH) }
    ensures gate_byte { K.tells → IfOk result (λ x.
        x.gate ≡ slice_index (K.seen station.old) x.next) }
    ensures ahead { IfOk result (λ x. at < x.next) }
    ensures within { K.tells → IfOk result (λ x. x.next < stretch.size) }
    ensures next { OnOk result (IsNext setup.now ends.now (parts_of scratch.new.segment)) }
    ensures step { IfOk result (λ x.
        IsStep ends.now at (parts_of scratch.new.segment) x.next) }
    ensures room { HasRoom setup.now stretch.limit scratch.new }
    ensures cause { result ≡ Err Disk →
        CountRose (K.faults station.old) (K.faults station.new) }
    ensures quiet { K.tells → StaysQuiet ⟦<K as Station>⟧ station.old station.new }
    ensures later { K.faults station.old ≤ K.faults station.new }
{
    let size = stretch.size;
    if at <= size {
        match stored_body(alloc, station, setup, stretch, ends, at, scratch) {
            Err(Stop::Damaged(Damage::Cut { .. })) => {}
            found => return found,
        }
    }
    let size_now = station.size()?;
    if size_now < at {
        return Err(Stop::Damaged(Damage::Cut { size: size_now }));
    }
    let grown = Stretch {
        layout: stretch.layout,
        limit: stretch.limit,
        start: stretch.start,
        size: size_now,
    };
    stored_body(alloc, station, setup, grown, ends, at, scratch)
}

// Its gauge ends where the segment does.
fn pass(ends: &mut [u64], segment: &Segment)
    requires { segment.now.gauge < length ends.old }
    ensures { ends.new ≡ ends_after ends.old (parts_of segment.now) }
{
    let name = segment.name();
    ends[usize::from(name.gauge)] = name.to;
}

// Where a walk came to a closed gate, behind so many bodies.
#[derive(Clone, Copy)]
pub(crate) struct Ended {
    pub(crate) place: u64,
    pub(crate) count: u64,
}

// Behind how many bodies a walk stopped, and why.
#[derive(Clone, Copy)]
pub(crate) struct Stopped {
    pub(crate) count: u64,
    pub(crate) stop: Stop,
}

// Reads body after body until a gate is closed, and hands each segment to the visitor. It tells
// that gate's place and the number of bodies; a fault comes with the body's number.
pub(crate) fn walk<K: Station, V: Visitor>(
    alloc: Global,
    station: &mut K,
    setup: &Setup,
    stretch: Stretch,
    ends: &mut [u64],
    visitor: &mut V,
    scratch: &mut Scratch,
) -> Result<Ended, Stopped>
    requires narrow { stretch.layout ≡ One → setup.now.grid.classes ≤ MAX_CLASSES_ONE }
    requires gauges { length ends.old ≡ length setup.now.gains }
    requires size { K.tells → stretch.size ≡ length (K.seen station.old) }
    requires start { stretch.start < stretch.size }
    requires near { IsNear stretch.start ends.old }
    requires few { stretch.limit < 2 ^ 32 }
    requires room { HasRoom setup.now stretch.limit scratch.old }
    // It ends as the image says, unless memory runs out or the disk fails.
    ensures walks { K.tells → EndsWalkAs (λ x. (x.place, ends.new))
        (Walks stretch.layout setup.now stretch.limit (K.seen station.old) 0 stretch.start
        ends.old) result }
    // With Ok the visitor was handed the bodies up to a closed gate.
    ensures found { IfOk result (λ x. FoundFrom V.step visitor.old visitor.new K.tells
        stretch.layout setup.now (K.seen station.old) stretch.start ends.old ends.new x.place
        x.count) }
    // Else those in front of another gate.
    ensures passed { IfErr result (λ _. BegunFrom V.step visitor.old visitor.new K.tells
        stretch.layout setup.now (K.seen station.old) stretch.start ends.old) }
    ensures room { HasRoom setup.now stretch.limit scratch.new }
    ensures near { IfOk result (λ x. IsNear x.place ends.new) }
    ensures count { IfOk result (λ x. x.count ≤ x.place) }
    ensures cause { IfErr result (λ e. e.stop ≡ Disk →
        CountRose (K.faults station.old) (K.faults station.new)) }
    ensures later { K.faults station.old ≤ K.faults station.new }
    ensures quiet { K.tells → StaysQuiet ⟦<K as Station>⟧ station.old station.new }
{
    let mut place = stretch.start;
    let mut count = 0u64;
    let mut first = [0u8; 1];
    if station.read_at(place, &mut first).is_err() {
        let stop = Stop::Disk;
        return Err(Stopped { count, stop });
    }
    let mut gate = first[0];
    'bodies: while gate == 1 {
        match next_body(alloc, station, setup, stretch, ends, place, scratch) {
            Ok(found) => {
                if visitor.body(alloc, &scratch.segment).is_err() {
                    let stop = Stop::Memory;
                    return Err(Stopped { count, stop });
                }
                pass(ends, &scratch.segment);
                place = found.next;
                gate = found.gate;
                count += 1;
            }
            Err(stop) => return Err(Stopped { count, stop }),
        }
    }
    Ok(Ended { place, count })
}
