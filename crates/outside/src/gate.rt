/// What each worker passes before it counts a block. It is given nothing to wait by.
pub trait Gate {
    /// A pass of `worker` before block number `block` of a round of `gauge`.
    fn pass(&self, worker: u8, gauge: u16, block: u64);
}

/// A gate that holds nobody.
#[derive(Drop)]
pub struct OpenGate;

impl Gate for OpenGate {
    fn pass(&self, worker: u8, gauge: u16, block: u64) {
        let _ = (worker, gauge, block);
    }
}
