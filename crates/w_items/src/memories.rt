//! Validity of memories.
ghost use Rattle.std.specs.Prelude.{◌≡◌, ◌↔◌, All, IsTrue};
ghost use Rattle.w_rules.specs.Valid.{AreLimitsValid, MemoryValid, most_pages};
ghost use Rattle.w_items.specs.Judged.{IsContextOf};

use crate::context::ModuleContext;
use crate::limits::{MOST_PAGES, are_limits_valid};
use w_syntax::Limits;

// Whether the limits of each of these memories are valid.
fn are_valid(memories: &[Limits]) -> bool
    ensures { IsTrue result ↔ All (AreLimitsValid most_pages) memories.now }
{
    memories
        .iter()
        .all(|limits| are_limits_valid(MOST_PAGES, *limits))
}

/// Whether the memories are valid: there is at most one with those imported, and its limits are valid.
pub(crate) fn are_memories_valid(cx: &ModuleContext) -> bool
    requires { IsContextOf cx.now }
    ensures { IsTrue result ↔ MemoryValid cx.now.candidate.now }
{
    cx.context.memories.len() <= 1 && are_valid(cx.candidate.memories.as_slice())
}
