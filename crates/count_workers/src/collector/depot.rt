use board::Board;
use board::block_pool::Pool;

/// Where units come from and where they are placed.
#[derive(Drop)]
pub struct Depot {
    /// The units that are not lent.
    pub pool: Pool,
    /// Where what was counted is placed.
    pub board: Board,
}
