//! A live view of one gauge: parts of the standard's own example that are shown one after the
//! other, and a thousand shows beside the looks of another thread.
ghost use Rattle.std.specs.Prelude.{◌≡◌, ◌≤◌, IfOk, OnOk, length};
ghost use Rattle.std.specs.Thread.{IsSync};
ghost use Rattle.segment.specs.Segment.{SegmentValue};
ghost use Rattle.live_view.specs.View.{AreAlike};
ghost use Rattle.live_view.specs.Ends.{IsSameWatcher, MayShow};

use calibration::{Classifier, Gain, Grid};
use live_view::{Shower, View, Watcher, live};
use segment::Segment;
use std::alloc::{AllocError, Global};
use std::process::Abort;
use std::sync::Wait;
use std::sync::atomic::{AtomicU64, Ordering};
use std::test::Fail;
use std::thread;
use std::thread::{Threads, join_mut};

// The segment of these samples of gauge 0, from a place on.
fn counted(alloc: Global, grid: &Grid, from: u64, samples: &[i32]) -> Result<Segment, Fail>
    requires few { length samples.now ≤ 8 }
    requires from { from ≤ 100 }
    ensures gauge { IfOk result (λ s. s.gauge ≡ 0) }
    ensures grid { IfOk result (λ s. s.grid ≡ grid.now) }
{
    let classifier = Classifier::new(&Gain::new(1000, 1, 0)?, grid);
    let mut levels = [0; 8];
    let mut segment = Segment::new(alloc, grid, 0, from, 16)?;
    segment.count_block(samples, &classifier, &mut levels);
    Ok(segment)
}

// Puts the part behind.
fn join(rt: &impl Abort, left: &mut Segment, right: &Segment)
    requires { left.old.grid ≡ right.now.grid }
    ensures grid { left.new.grid ≡ left.old.grid }
    ensures gauge { left.new.gauge ≡ left.old.gauge }
    ensures end { left.old.to ≤ left.new.to }
{
    let (a, b) = (left.name(), right.name());
    assert!(rt; a.to - a.from + (b.to - b.from) <= left.longest());
    assert!(rt; left.join(right).is_ok());
    let now = left.name();
    assert!(rt; now.to >= a.to);
}

#[test]
fn rows_are_set(rt: HostRuntime) -> Result<(), Fail> {
    let grid = Grid::new(16, 2, -8000, 8)?;
    let mut view = View::new(rt.alloc(), &grid, 2)?;
    let segment = counted(rt.alloc(), &grid, 0, &[-2, 1, -3, 5, i32::MIN, 99])?;
    view.set(&segment);
    assert_eq!(rt; (view.to(0), view.used(0)), (6, 4));
    assert_eq!(rt; (view.missing(0), view.refused(0)), (1, 1));
    assert_eq!(rt; (view.half_units(0, 3), view.half_units(0, 8)), (1, 1));
    assert_eq!(rt; (view.to(1), view.half_units(1, 3)), (0, 0));
    assert_eq!(rt; (view.to(2), view.half_units(0, 16)), (0, 0));
    Ok(())
}

// Shows a segment, tells the watcher, and looks.
fn show_and_look<R: Wait + Abort>(
    rt: &R,
    alloc: Global,
    shower: &mut Shower,
    watcher: &mut Watcher,
    segment: &Segment,
    copy: &mut View,
) -> Result<(), AllocError>
    requires one { watcher.old.of ≡ shower.old.of }
    requires may { MayShow shower.old.view segment.now }
    requires alike { AreAlike copy.old watcher.old.first }
    ensures one { watcher.new.of ≡ shower.new.of }
    ensures alike { AreAlike copy.new watcher.new.first }
    ensures next { OnOk result ((t : SegmentValue) → t.grid ≡ segment.now.grid →
        t.gauge ≡ segment.now.gauge → segment.now.to ≤ t.to → MayShow shower.new.view t) }
{
    shower.show(rt, alloc, segment)?;
    watcher.learn(shower.note());
    assert!(rt; watcher.look(copy));
    Ok(())
}

// Shows the left part, and then the whole.
fn show_both<R: Wait + Abort>(
    rt: &R,
    alloc: Global,
    shower: &mut Shower,
    watcher: &mut Watcher,
    left: &mut Segment,
    right: &Segment,
    copy: &mut View,
) -> Result<(), AllocError>
    requires one { watcher.old.of ≡ shower.old.of }
    requires may { MayShow shower.old.view left.old }
    requires grid { left.old.grid ≡ right.now.grid }
    requires alike { AreAlike copy.old watcher.old.first }
    ensures one { watcher.new.of ≡ shower.new.of }
{
    show_and_look(rt, alloc, shower, watcher, left, copy)?;
    assert_eq!(rt; (copy.to(0), copy.used(0)), (4, 4));
    join(rt, left, right);
    show_and_look(rt, alloc, shower, watcher, left, copy)?;
    assert_eq!(rt; (copy.to(0), copy.used(0)), (9, 9));
    assert_eq!(rt; (copy.half_units(0, 9), copy.half_units(0, 4)), (1, 3));
    Ok(())
}

// The same in a new live view.
fn show_in_turn<R: Wait + Abort>(
    rt: &R,
    alloc: Global,
    left: &mut Segment,
    right: &Segment,
) -> Result<(), Fail>
    requires gauge { left.old.gauge ≡ 0 }
    requires grid { left.old.grid ≡ right.now.grid }
{
    let mut copy = View::new(alloc, &left.grid(), 1)?;
    let first = View::new(alloc, &left.grid(), 1)?;
    let (mut shower, mut watcher) = live(rt, alloc, first)?;
    let ended = show_both(rt, alloc, &mut shower, &mut watcher, left, right, &mut copy);
    shower.end(rt, watcher);
    ended?;
    Ok(())
}

#[test]
fn what_is_shown_is_seen(rt: HostRuntime) -> Result<(), Fail> {
    let grid = Grid::new(16, 2, -8000, 8)?;
    let mut left = counted(rt.alloc(), &grid, 0, &[-2, 1, -3, 5])?;
    let right = counted(rt.alloc(), &grid, 4, &[-1, 3, -4, 4, -2])?;
    show_in_turn(&rt, rt.alloc(), &mut left, &right)
}

// How many segments are shown beside the looks of another thread.
const SHOWS: u64 = 1000;

// Shows a segment with one sample more, and says whether it did.
fn show_longer<R: Wait + Abort>(
    rt: &R,
    alloc: Global,
    gain: &Gain,
    shower: &mut Shower,
    segment: &mut Segment,
) -> bool
    requires { MayShow shower.old.view segment.old }
    ensures may { MayShow shower.new.view segment.new }
    ensures of { shower.new.of ≡ shower.old.of }
{
    let name = segment.name();
    if name.from > name.to || name.to >= SHOWS || name.to - name.from >= segment.longest() {
        return false;
    }
    segment.take(if name.to % 2 == 0 { 5 } else { -2 }, gain);
    assert!(rt; segment.name().to >= name.to);
    match shower.show(rt, alloc, segment) {
        Ok(()) => true,
        Err(_) => false,
    }
}

// What the two threads tell each other.
#[derive(Drop)]
struct Turns {
    looks: AtomicU64,
    done: AtomicU64,
}

impl Turns {
    // Waits for the first look, but not for ever.
    fn wait_for_look(&self) {
        for _ in 0..1_000_000 {
            if self.looks.load(Ordering::SeqCst) > 0 {
                return;
            }
            thread::yield_now();
        }
    }
}

// Shows a segment again and again, each time with one sample more, and says whether each was shown.
fn show_all<R: Wait + Abort>(
    rt: &R,
    alloc: Global,
    turns: &Turns,
    gain: &Gain,
    shower: &mut Shower,
    segment: &mut Segment,
) -> bool
    requires { MayShow shower.old.view segment.old }
    ensures { shower.new.of ≡ shower.old.of }
{
    turns.wait_for_look();
    let mut is_shown = true;
    for _ in 0..SHOWS {
        is_shown = show_longer(rt, alloc, gain, shower, segment) && is_shown;
    }
    turns.done.store(1, Ordering::SeqCst);
    is_shown
}

// Looks until all was shown, and says whether each look's end was at least that of the one before.
fn look_until_done<R: Wait>(rt: &R, turns: &Turns, watcher: &mut Watcher, copy: &mut View) -> bool
    requires { AreAlike copy.old watcher.old.first }
    ensures same { IsSameWatcher watcher.old watcher.new }
    ensures alike { AreAlike copy.new watcher.old.first }
{
    let mut is_rising = true;
    for _ in rt.forever() {
        if turns.done.load(Ordering::SeqCst) > 0 {
            return is_rising;
        }
        let last = copy.to(0);
        is_rising = watcher.look(copy) && last <= copy.to(0) && is_rising;
        turns.looks.store(1, Ordering::SeqCst);
        thread::yield_now();
    }
    is_rising
}

// Shows in this thread, and looks in another one. It says whether each look's end was at least that
// of the one before, and whether each segment was shown.
fn look_beside<R: Threads + Wait + Sync + Abort>(
    rt: &R,
    alloc: Global,
    gain: &Gain,
    shower: &mut Shower,
    watcher: &mut Watcher,
    segment: &mut Segment,
    copy: &mut View,
) -> (bool, bool)
    requires one { watcher.old.of ≡ shower.old.of }
    requires may { MayShow shower.old.view segment.old }
    requires alike { AreAlike copy.old watcher.old.first }
    ensures one { watcher.new.of ≡ shower.new.of }
    ensures alike { AreAlike copy.new watcher.new.first }
{
    let turns = Turns {
        looks: AtomicU64::new(0),
        done: AtomicU64::new(0),
    };
    join_mut(
        rt,
        &mut ||
            requires { IsSync R.row × AreAlike copy.now watcher.now.first }
            ensures { IsSameWatcher watcher.entry.now watcher.exit.now
                × AreAlike copy.exit.now watcher.entry.now.first }
        { look_until_done(rt, &turns, watcher, copy) },
        &mut || show_all(rt, alloc, &turns, gain, shower, segment),
    )
}

// The same in a new live view: at the end the watcher sees the last show.
fn show_beside_looks<R: Threads + Wait + Sync + Abort>(
    rt: &R,
    alloc: Global,
    segment: &mut Segment,
) -> Result<(), Fail>
    requires { segment.old.gauge ≡ 0 }
{
    let gain = Gain::new(1000, 1, 0)?;
    let mut copy = View::new(alloc, &segment.grid(), 1)?;
    let first = View::new(alloc, &segment.grid(), 1)?;
    let (mut shower, mut watcher) = live(rt, alloc, first)?;
    let (is_rising, is_shown) = look_beside(
        rt,
        alloc,
        &gain,
        &mut shower,
        &mut watcher,
        segment,
        &mut copy,
    );
    watcher.learn(shower.note());
    let is_seen = watcher.look(&mut copy);
    shower.end(rt, watcher);
    if !is_shown {
        return Err(Fail::from("OutOfMemory"));
    }
    assert!(rt; is_rising && is_seen);
    assert_eq!(rt; (copy.to(0), copy.used(0)), (SHOWS, SHOWS));
    Ok(())
}

#[test]
fn looks_beside_shows_rise(rt: HostRuntime) -> Result<(), Fail> {
    let grid = Grid::new(16, 2, -8000, 8)?;
    let mut segment = Segment::new(rt.alloc(), &grid, 0, 0, SHOWS)?;
    show_beside_looks(&rt, rt.alloc(), &mut segment)
}
