use board::Board;
use count_workers::Prepared;
use count_workers::crew::Helpers;
use outside::Source;

/// Prepared rounds, with the board that they have not, and the helpers of their workers.
#[derive(Drop)]
pub struct RoundsToMake<C: Source> {
    pub prepared: Prepared<C>,
    /// It is taken when the rounds begin.
    pub board: Option<Board>,
    /// None of one worker.
    pub helpers: Option<Helpers>,
}
