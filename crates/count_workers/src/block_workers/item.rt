use board::block_pool::{Counted, Filled};

/// What a ring takes: a block that was read, or the mark that ends a round.
#[derive(Drop)]
pub enum Item {
    Block(Filled),
    Mark,
}

/// What a return ring takes: a unit that was counted, or the mark that ends a round.
#[derive(Drop)]
pub enum Back {
    Unit(Counted),
    Over,
}
