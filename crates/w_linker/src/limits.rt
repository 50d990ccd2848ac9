//! The limits of memories and tables where a run of several files begins.
ghost use Rattle.std.specs.Prelude.{◌≡◌, IfNone, All};
ghost use Rattle.w_linked.specs.Starting as starting;
ghost use Rattle.w_linker.specs.Parts.{IsAccepted};

use w_inst::exceeded;
use w_reduce::StartLimit;
use w_rules::Checked;

/// The first file that passes a limit at first, and that limit.
pub(crate) fn first_exceeded(modules: &[Checked]) -> Option<(usize, StartLimit)>
    ensures first { result ≡ starting.first_exceeded 0 modules.now }
    ensures accepted { IfNone result (All IsAccepted modules.now) }
{
    for file in 0..modules.len() {
        if let Some(limit) = exceeded(modules[file].module()) {
            return Some((file, limit));
        }
    }
    None
}
