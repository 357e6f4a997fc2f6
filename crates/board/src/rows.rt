ghost use Rattle.std.specs.Bool.{OnTrue, OnFalse};
ghost use Rattle.std.specs.Prelude.{◌≡◌, ◌+◌, ◌-◌, ◌<◌, ◌≤◌, nat_le, length, slice_index_or};
ghost use Rattle.segment.specs.Segment.{SegmentValue};
ghost use Rattle.board.specs.Rows.{CopiesToPlace, JoinsToPlace, JoinsPlaces, Before, IsJoin, IsCopy, IsEmptied, IsNextTo, CanPlace, IsPlacing, TouchesNext, TouchesNone, ClosesGapAt};
ghost use Rattle.board.specs.Board.{IsRow};

use segment::Segment;
use segment::segment_rules::Name;

// Makes a segment another one. It keeps the number of samples that it may come to.
fn copy(slot: &mut Segment, segment: &Segment)
    requires grid { slot.old.grid ≡ segment.now.grid }
    requires longest { segment.now.to - segment.now.from ≤ slot.old.longest }
    ensures { IsCopy slot.old.longest segment.now slot.new }
{
    let name = segment.name();
    slot.clear(name.gauge, name.from);
    let _ = slot.join(segment);
}

// Joins a segment that goes on where the first one ends.
fn join(slot: &mut Segment, segment: &Segment)
    requires grid { slot.old.grid ≡ segment.now.grid }
    requires next { IsNextTo slot.old segment.now }
    requires longest { segment.now.to - slot.old.from ≤ slot.old.longest }
    ensures { IsJoin slot.old segment.now slot.new }
{
    let (_left, _right) = (slot.name(), segment.name());
    let _ = slot.join(segment);
}

// Takes all samples out of a segment.
fn empty(slot: &mut Segment)
    ensures { IsEmptied slot.old slot.new }
{
    let name = slot.name();
    slot.clear(name.gauge, name.from);
}

/// Whether it has no samples.
pub(crate) fn is_empty(slot: &Segment) -> bool
    ensures { result ≡ nat_le slot.now.to slot.now.from }
{
    let name = slot.name();
    name.to <= name.from
}

// The last place up to `k` at which an interval begins.
fn last_up_to(slots: &[Segment], k: usize) -> Option<usize>
    requires { k < length slots.now }
    ensures { Before slots.now k result }
{
    for back in 0..k + 1 {
        let j = k - back;
        if !is_empty(&slots[j]) {
            return Some(j);
        }
    }
    None
}

// Puts the segment at a place.
fn put(slots: &mut [Segment], k: usize, segment: &Segment)
    requires at { k < length slots.old }
    requires grid { (d : SegmentValue) → (slice_index_or slots.old k d).grid ≡ segment.now.grid }
    requires longest { (d : SegmentValue) →
        segment.now.to - segment.now.from ≤ (slice_index_or slots.old k d).longest }
    ensures { CopiesToPlace slots.old slots.new k segment.now }
{
    copy(&mut slots[k], segment);
}

// Joins the segment behind the one at a place.
fn extend(slots: &mut [Segment], j: usize, segment: &Segment)
    requires at { j < length slots.old }
    requires grid { (d : SegmentValue) → (slice_index_or slots.old j d).grid ≡ segment.now.grid }
    requires next { (d : SegmentValue) → IsNextTo (slice_index_or slots.old j d) segment.now }
    requires longest { (d : SegmentValue) → segment.now.to - (slice_index_or slots.old j d).from
        ≤ (slice_index_or slots.old j d).longest }
    ensures { JoinsToPlace slots.old slots.new j segment.now }
{
    join(&mut slots[j], segment);
}

// Joins the segment at a later place behind the one at a place, which leaves the later place
// empty.
fn merge(slots: &mut [Segment], j: usize, k: usize)
    requires at { (j < k) × (k < length slots.old) }
    requires grid { (d : SegmentValue) →
        (slice_index_or slots.old j d).grid ≡ (slice_index_or slots.old k d).grid }
    requires next { (d : SegmentValue) →
        IsNextTo (slice_index_or slots.old j d) (slice_index_or slots.old k d) }
    requires longest { (d : SegmentValue) →
        (slice_index_or slots.old k d).to - (slice_index_or slots.old j d).from
        ≤ (slice_index_or slots.old j d).longest }
    ensures { JoinsPlaces slots.old slots.new j k }
{
    let (left, right) = slots.split_at_mut(k);
    join(&mut left[j], &right[0]);
    empty(&mut right[0]);
}

// Whether the interval at `k + 1`, if there is one, begins where the one at `j` ends.
fn touches_next(slots: &[Segment], j: usize, k: usize) -> bool
    requires at { (j ≤ k) × (k < length slots.now) }
    ensures touches { OnTrue result (TouchesNext slots.now j (k + 1)) }
    ensures none { OnFalse result (TouchesNone slots.now j (k + 1)) }
{
    if k + 1 >= slots.len() {
        return false;
    }
    let next = slots[k + 1].name();
    next.from < next.to && slots[j].name().to == next.from
}

// Joins the interval that begins behind a block to the one that ends with it.
fn close(slots: &mut [Segment], j: usize, k: usize)
    requires at { (j ≤ k) × (k < length slots.old) }
    requires grid { (d : SegmentValue) → k + 1 < length slots.old →
        (slice_index_or slots.old j d).grid ≡ (slice_index_or slots.old (k + 1) d).grid }
    requires gauge { (d : SegmentValue) → k + 1 < length slots.old →
        (slice_index_or slots.old (k + 1) d).gauge ≡ (slice_index_or slots.old j d).gauge }
    requires longest { (d : SegmentValue) → k + 1 < length slots.old →
        (slice_index_or slots.old (k + 1) d).from < (slice_index_or slots.old (k + 1) d).to →
        (slice_index_or slots.old (k + 1) d).to - (slice_index_or slots.old j d).from
        ≤ (slice_index_or slots.old j d).longest }
    ensures { ClosesGapAt slots.old slots.new j (k + 1) }
{
    if touches_next(slots, j, k) {
        merge(slots, j, k + 1);
    }
}

/// Places a segment that begins at the `k`-th block. Answers the interval that has its first
/// sample, where there is one, and then nothing changes.
pub fn place(
    slots: &mut [Segment],
    start: u64,
    block: u32,
    k: usize,
    segment: &Segment,
) -> Option<Name>
    requires row { IsRow block segment.now.grid segment.now.gauge
        (record { start = start; slots = slots.old }) }
    requires fits { CanPlace start block k segment.now }
    ensures { IsPlacing start block slots.old slots.new segment.now result }
{
    let Some(j) = last_up_to(slots, k) else {
        put(slots, k, segment);
        close(slots, k, k);
        return None;
    };
    let last = slots[j].name();
    let from = segment.name().from;
    if last.to > from {
        return Some(last);
    }
    if last.to == from {
        extend(slots, j, segment);
        close(slots, j, k);
    } else {
        put(slots, k, segment);
        close(slots, k, k);
    }
    None
}
