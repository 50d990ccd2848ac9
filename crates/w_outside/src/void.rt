//! A sink that keeps nothing.
ghost use Rattle.std.specs.Prelude.{◌≡◌, IfOk, IsErrOf, None, length};
ghost use Rattle.w_outside.specs.Outside.{HasCause, WriteTakes};

use crate::{Fault, Sink};

/// A sink that takes all, keeps nothing and never fails. Nothing is told of what it holds.
#[derive(Clone, Copy, Drop)]
pub struct Void;

impl Sink for Void {
    ghost held = { λ _. None };

    ghost faults = { λ _. 0 };

    ghost allocates = { ⊥ };

    fn write(&mut self, piece: &[u8]) -> Result<usize, Fault>
        ensures takes { WriteTakes (⟦<Void as Sink>⟧.held self.old) (⟦<Void as Sink>⟧.held self.new) piece.now result }
        ensures cause { HasCause (⟦<Void as Sink>⟧.faults self.old) (⟦<Void as Sink>⟧.faults self.new) result }
        ensures memory { IsErrOf result Fault.OutOfMemory → ⟦<Void as Sink>⟧.allocates }
        // It takes whole pieces.
        ensures whole { IfOk result (λ n. n ≡ length piece.now) }
    {
        Ok(piece.len())
    }
}
