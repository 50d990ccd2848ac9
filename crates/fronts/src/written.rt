//! What was written, for proofs alone: it takes no memory.
ghost use Rattle.std.specs.Prelude.{◌≡◌, ◌++◌};
ghost use Rattle.fronts.specs.Fronts.{text_of};

use http_server::Log;

/// What was written, and then the bytes of a piece. The history has pairs; its text is their first parts.
pub(crate) fn and_piece(written: Log<u8, u8>, piece: &[u8]) -> Log<u8, u8>
    ensures { text_of result.items ≡ text_of written.items ++ piece.now }
{
    let mut written = written;
    for byte in piece {
        written = written.and(byte, byte);
    }
    written
}
