ghost use Rattle.std.specs.Prelude.{◌≡◌, ◌+◌, ◌≤◌, [], ◌∷◌, ◌++◌, OnOk, IfErr};
ghost use Rattle.count_workers.specs.gauge_ring.Ends.{fed, free, IsSameFeeder};

use rtrb::{Producer, PushError};

/// The end of a ring that is fed.
#[derive(Drop)]
pub struct Feeder<T> {
    pub(crate) producer: Producer<T>,
}

impl<T> Feeder<T> {
    /// Appends the item to what was fed, or hands it back. It is handed back only where the feeder
    /// knew of no free place.
    pub fn feed(&mut self, item: T) -> Result<(), T>
        ensures same { IsSameFeeder self.old self.new }
        ensures ok { OnOk result (fed self.new ≡ fed self.old ++ item ∷ []) }
        ensures places { OnOk result (free self.old ≤ free self.new + 1) }
        ensures given { IfErr result (λ given. given ≡ item) }
        ensures unchanged { IfErr result (λ given. fed self.new ≡ fed self.old) }
        ensures full { IfErr result (λ given. (free self.old ≡ 0) × (free self.new ≡ 0)) }
    {
        match self.producer.push(item) {
            Ok(()) => Ok(()),
            Err(PushError::Full(given)) => Err(given),
        }
    }
}
