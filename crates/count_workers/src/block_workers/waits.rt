ghost use Rattle.std.specs.Prelude.{◌≡◌, ◌<◌, ◌++◌, ◌∷◌, [], length};
ghost use Rattle.count_workers.specs.gauge_ring.Ends.{fed, IsSameFeeder};
ghost use Rattle.count_workers.specs.block_workers.Dealing.{FeedsOneRing, MarksAll};

use crate::block_workers::Item;
use crate::gauge_ring::Feeder;
use std::sync::Wait;
use std::thread;

/// Feeds the item, however often it has to be tried.
pub fn feed_waiting<T>(rt: &impl Wait, feeder: &mut Feeder<T>, item: T)
    ensures same { IsSameFeeder feeder.old feeder.new }
    ensures fed { fed feeder.new ≡ fed feeder.old ++ item ∷ [] }
{
    let mut item = item;
    for _ in rt.forever() {
        match feeder.feed(item) {
            Ok(()) => return,
            Err(back) => item = back,
        }
        thread::yield_now();
    }
    unreachable!()
}

/// Feeds the item to one of the rings.
pub fn deal(rt: &impl Wait, feeders: &mut [Feeder<Item>], v: usize, item: Item)
    requires { v < length feeders.old }
    ensures { FeedsOneRing feeders.old feeders.new v (item ∷ []) }
{
    feed_waiting(rt, &mut feeders[v], item);
}

/// Ends the round of each ring.
pub fn mark_all(rt: &impl Wait, feeders: &mut [Feeder<Item>])
    ensures { MarksAll feeders.old feeders.new }
{
    for v in 0..feeders.len() {
        feed_waiting(rt, &mut feeders[v], Item::Mark);
    }
}
