//! What an action gives.
ghost use Rattle.std.specs.Prelude.{◌≡◌, [], IfOk};
ghost use Rattle.replies.specs.Pieces.{joined};

use std::alloc::{AllocError, Global};

/// What is written to out, and behind it to err: pieces, in their order.
#[derive(Drop)]
pub struct Output {
    pub pieces: Vec<Vec<u8>>,
    pub err: Vec<Vec<u8>>,
}

impl Output {
    /// Nothing.
    pub fn empty(alloc: Global) -> Output
        ensures piece { joined result.pieces.items ≡ [] }
        ensures err { joined result.err.items ≡ [] }
    {
        Output {
            pieces: Vec::new(alloc),
            err: Vec::new(alloc),
        }
    }

    /// One piece, and nothing to err.
    pub fn of_piece(alloc: Global, piece: Vec<u8>) -> Result<Output, AllocError>
        ensures piece { IfOk result (λ output. joined output.pieces.items ≡ piece.items) }
        ensures err { IfOk result (λ output. joined output.err.items ≡ []) }
    {
        let mut pieces = Vec::new(alloc);
        pieces.push(piece)?;
        Ok(Output {
            pieces,
            err: Vec::new(alloc),
        })
    }
}
