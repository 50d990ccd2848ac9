//! Writing an answer.
ghost use Rattle.std.specs.Prelude.{◌⊎◌, ◌≤◌, OnOk, OnErr};
ghost use Rattle.w_outside.specs.Outside.{Grew, GrewByFront, HasCause, Rose};
ghost use Rattle.runs.specs.Leaving.{Delivers};
ghost use Rattle.replies.specs.Pieces.{joined};
ghost use Rattle.replies.specs.Stop.{EndsByItself};

use replies::{Output, Status, Stop};
use w_outside::{Fault, Sink, put};

/// Writes pieces in their order.
pub fn write_pieces<O: Sink>(pieces: &[Vec<u8>], out: &mut O) -> Result<(), Fault>
    ensures ok { OnOk result (Grew (O.held out.old) (O.held out.new) (joined pieces.now)) }
    ensures err { OnErr result (GrewByFront (O.held out.old) (O.held out.new) (joined pieces.now)) }
    ensures cause { HasCause (O.faults out.old) (O.faults out.new) result }
{
    for piece in pieces {
        put(out, piece.as_slice())?;
    }
    Ok(())
}

/// Writes what is left of an answer, and gives its status.
pub fn deliver<O: Sink, E: Sink>(
    answer: Result<Output, Stop>,
    out: &mut O,
    err: &mut E,
) -> Result<Status, Fault>
    requires { EndsByItself answer }
    ensures delivers { Delivers answer result
        (Grew (O.held out.old) (O.held out.new)) (Grew (E.held err.old) (E.held err.new))
        (Rose (O.faults out.old) (O.faults out.new) ⊎ Rose (E.faults err.old) (E.faults err.new)) }
    ensures later { (O.faults out.old ≤ O.faults out.new) × (E.faults err.old ≤ E.faults err.new) }
{
    match answer {
        Ok(output) => {
            write_pieces(output.pieces.as_slice(), out)?;
            write_pieces(output.err.as_slice(), err)?;
            Ok(Status::Done)
        }
        Err(Stop::Refused(refusal)) => {
            write_pieces(refusal.lines.as_slice(), err)?;
            Ok(refusal.status)
        }
        Err(Stop::WriteFault) => Err(Fault::Failed),
        Err(Stop::OutOfMemory) => Err(Fault::OutOfMemory),
    }
}
