//! What the items of a module are judged in.

use w_rules::Context;
use w_syntax::Module;

/// A module and its context (Core, validation, modules).
#[derive(Clone, Copy)]
pub struct ModuleContext<'a> {
    pub candidate: &'a Module,
    pub context: Context<'a>,
}
