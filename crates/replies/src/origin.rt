//! What a run is of.
ghost use Rattle.std.specs.Prelude.{◌≡◌, IfOk};
ghost use Rattle.replies.specs.Origin.{trap_reply_of};

use crate::lines::{fault_line, trap_line};
use s_syntax::Script;
use std::alloc::{AllocError, Global};
use w_reduce::Trap;

/// What a run is of: a module, or the module of a script, whose traps stand for the script's faults.
#[derive(Clone, Copy)]
pub enum Origin<'a> {
    Module,
    Script(&'a Script),
}

impl<'a> Origin<'a> {
    /// The line of a trap.
    pub fn trap_line(self, alloc: Global, trap: Trap) -> Result<Vec<u8>, AllocError>
        ensures { IfOk result (λ v. v.items ≡ (trap_reply_of self.entry trap).err) }
    {
        match self {
            Origin::Module => trap_line(alloc, trap),
            Origin::Script(script) => fault_line(alloc, script, trap),
        }
    }
}
