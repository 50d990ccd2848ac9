//! The program that a machine runs.
ghost use Rattle.w_plain.specs.Known.{IsKnown, IsKnown-prop};

use w_call_ops::Callees;
use w_syntax::Module;

/// A module, with what the check of it found out, and the index of each function's type, imported functions in front.
#[derive(Clone, Copy)]
pub struct KnownProgram<'a> {
    pub source: &'a Module,
    pub runnable: &'a Callees,
    pub functions: &'a [u32],
    pub ghost known: { IsKnown source.now runnable.now functions.now } by { IsKnown-prop source.now runnable.now functions.now },
}
