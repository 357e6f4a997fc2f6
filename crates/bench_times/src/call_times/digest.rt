/// A digest of numbers in their order.
#[derive(Clone, Copy, Debug, PartialEq, Eq)]
pub struct Digest {
    state: u64,
}

impl Digest {
    /// The digest of no numbers.
    pub fn new() -> Digest {
        Digest { state: 1 }
    }

    /// Takes the next number.
    #[inline(always)]
    pub fn take(&mut self, number: u64) {
        self.state = (self.state ^ number).wrapping_mul(0x9e37_79b9_7f4a_7c15);
    }

    /// The digest as a number.
    pub fn value(self) -> u64 {
        self.state
    }
}
