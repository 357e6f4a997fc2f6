ghost use Rattle.std.specs.Prelude.{◌≡◌, IfOk, length};
ghost use Rattle.recording.specs.declared.TheConstants.{PIECE};

use recording::PIECE;
use std::alloc::{AllocError, Global};

/// Room for the samples of a piece and for their levels.
#[derive(Drop)]
pub struct Piece {
    pub raws: Vec<i32>,
    pub levels: Vec<u16>,
}

impl Piece {
    /// Takes the 96 KiB of a piece.
    pub fn new(alloc: Global) -> Result<Piece, AllocError>
        ensures raws { IfOk result (λ piece. length piece.raws.items ≡ PIECE) }
        ensures levels { IfOk result (λ piece. length piece.levels.items ≡ PIECE) }
    {
        Ok(Piece {
            raws: vec![in alloc; 0; PIECE]?,
            levels: vec![in alloc; 0; PIECE]?,
        })
    }
}
