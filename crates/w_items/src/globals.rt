//! Validity of globals.
ghost use Rattle.std.specs.Prelude.{◌≡◌, ◌↔◌, IfOk, IsTrue};
ghost use Rattle.w_rules.specs.Valid.{GlobalValid};
ghost use Rattle.w_items.specs.Judged.{IsContextOf};

use crate::by_index::item_at;
use crate::context::ModuleContext;
use std::alloc::{AllocError, Global};
use w_bodies::is_const_typed;
use w_rules::{Context, has_type};

/// Whether the global of this index is valid: its type is, and what it begins with is constant and of this type.
pub(crate) fn is_valid(alloc: Global, cx: &ModuleContext, index: usize) -> Result<bool, AllocError>
    requires { IsContextOf cx.now }
    ensures { IfOk result (λ typed. IsTrue typed ↔ GlobalValid cx.now.candidate.now index) }
{
    let Some(global) = item_at(&cx.candidate.globals, index) else {
        return Ok(false);
    };
    if !has_type(cx.candidate.types.type_count(), global.kind.kind) {
        return Ok(false);
    }
    // what it begins with gets only globals of lower index
    let imported = cx.context.globals.len() - cx.candidate.globals.len();
    let below = Context {
        globals: &cx.context.globals[..imported + index],
        ..cx.context
    };
    is_const_typed(alloc, &below, &global.init, global.kind.kind)
}
