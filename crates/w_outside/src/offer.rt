//! A piece offered until it is taken.
ghost use Rattle.std.specs.Prelude.{◌≡◌, ◌≤◌, drop, length, OnOk, OnErr, IsErrOf};
ghost use Rattle.w_outside.specs.Outside.{Grew, GrewByFront, HasCause};

use crate::{Fault, Sink};

// What follows the first n bytes.
pub(crate) fn after(bytes: &[u8], n: usize) -> &[u8]
    requires { n ≤ length bytes.now }
    ensures { result.now ≡ drop n bytes.now }
{
    &bytes[n..]
}

/// Offers a piece to a sink, the rest again until all is taken.
pub fn put<S: Sink>(sink: &mut S, piece: &[u8]) -> Result<(), Fault>
    ensures ok { OnOk result (Grew (S.held sink.old) (S.held sink.new) piece.now) }
    ensures err { OnErr result (GrewByFront (S.held sink.old) (S.held sink.new) piece.now) }
    ensures cause { HasCause (S.faults sink.old) (S.faults sink.new) result }
    // Memory runs out in the sink alone.
    ensures memory { IsErrOf result Fault.OutOfMemory → S.allocates }
{
    let mut rest = piece;
    while !rest.is_empty() {
        let taken = sink.write(rest)?;
        rest = after(rest, taken);
    }
    Ok(())
}
