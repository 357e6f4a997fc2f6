ghost use Rattle.std.specs.Prelude.{◌≡◌, ◌≤◌, [], ◌∷◌, ◌++◌, length, IfOk, IfSome, IfNone};
ghost use mathlib.Core.List.{IsPrefix};
ghost use Rattle.count_workers.specs.gauge_ring.Ends.{fed, free, taken, known, AreOneRing, IsSameFeeder, IsSameTaker};

use crate::gauge_ring::{Feeder, MAX_PLACES, OutOfMemory};
use rtrb::{Consumer, RingBuffer};
use std::alloc::Global;

/// The end of a ring that is taken from.
#[derive(Drop)]
pub struct Taker<T> {
    consumer: Consumer<T>,
}

/// The ends of a new ring with so many places, all of them free.
pub fn ring<T: Send + Drop>(
    alloc: Global,
    places: usize,
) -> Result<(Feeder<T>, Taker<T>), OutOfMemory>
    requires { (1 ≤ places) × (places ≤ MAX_PLACES) }
    ensures one { IfOk result (λ r. AreOneRing r.0 r.1) }
    ensures empty { IfOk result (λ r. (fed r.0 ≡ []) × (taken r.1 ≡ [])) }
    ensures free { IfOk result (λ r. free r.0 ≡ places) }
{
    let (producer, consumer) = RingBuffer::new(alloc, places)?;
    Ok((Feeder { producer }, Taker { consumer }))
}

impl<T> Taker<T> {
    /// The oldest item that was not taken, or none. None comes only where the taker knew of no
    /// item.
    pub fn take(&mut self) -> Option<T>
        ensures same { IsSameTaker self.old self.new }
        ensures item { IfSome result (λ x. taken self.new ≡ taken self.old ++ x ∷ []) }
        ensures in_order { IfSome result (λ x. IsPrefix (known self.old) (x ∷ known self.new)) }
        ensures none { IfNone result ((taken self.new ≡ taken self.old) × (known self.old ≡ [])) }
    {
        match self.consumer.pop() {
            Ok(item) => Some(item),
            Err(_) => None,
        }
    }

    /// Looks at both ends, which are in one thread, and answers how many items are left. The taker
    /// knows of all of them.
    pub fn settle(&mut self, feeder: &mut Feeder<T>) -> usize
        requires { AreOneRing feeder.old self.old }
        ensures same { IsSameTaker self.old self.new × IsSameFeeder feeder.old feeder.new }
        ensures left { result ≡ length (known self.new) }
        ensures taken { taken self.new ≡ taken self.old }
        ensures fed { fed feeder.new ≡ fed feeder.old }
        ensures fifo { fed feeder.new ≡ taken self.new ++ known self.new }
    {
        self.consumer.slots_beside(&mut feeder.producer)
    }
}
