//! Texts in one buffer.
ghost use Rattle.std.specs.Prelude.{◌≡◌, ◌⊎◌, ◌++◌, OnOk, [], true, false};
ghost use Rattle.replies.specs.Pieces.{joined};
ghost use Rattle.handing.specs.Handed.{Handed, HandsStop, Untouched};

use crate::handing::hand;
use fronts::FrontSink;
use replies::{Status, Stop};
use runs::write_pieces;
use std::alloc::Global;

/// Hands over pieces as one text, and says whether memory sufficed.
pub fn hand_pieces(alloc: Global, pieces: &[Vec<u8>], buffer: &mut [u8], length: &mut u64) -> bool
    ensures { ((result ≡ true) × Handed (joined pieces.now) buffer.old buffer.new length.new)
        ⊎ ((result ≡ false) × Untouched buffer.old buffer.new length.new) }
{
    let mut written = FrontSink::new(alloc, buffer.len());
    let fits = write_pieces(pieces, &mut written).is_ok() && written.most() == buffer.len();
    *length = if fits { hand(&written, buffer) } else { 0 };
    fits
}

/// Hands over why there is no answer, as `hand_answer` does what stands on err, and gives its status.
pub fn hand_stop(alloc: Global, stop: Stop, err: &mut [u8], err_length: &mut u64) -> Status
    ensures { HandsStop stop result err.old err.new err_length.new }
{
    *err_length = 0;
    match stop {
        Stop::Refused(refusal) => {
            if hand_pieces(alloc, refusal.lines.as_slice(), err, err_length) {
                refusal.status
            } else {
                Status::OutOfMemory
            }
        }
        Stop::WriteFault => Status::WriteFault,
        Stop::OutOfMemory => Status::OutOfMemory,
    }
}
