//! Validity of data segments.
ghost use Rattle.std.specs.Prelude.{◌≡◌, ◌↔◌, IfOk, IsTrue};
ghost use Rattle.w_rules.specs.Valid.{DataValid, IsDataModeValid};
ghost use Rattle.w_items.specs.Judged.{IsContextOf};

use crate::by_index::item_at;
use crate::context::ModuleContext;
use std::alloc::{AllocError, Global};
use w_bodies::is_const_typed;
use w_syntax::DataMode;
use w_types::PackedType;

// Whether a segment's memory is there and its offset is a constant, where it is active.
fn is_mode_typed(alloc: Global, cx: &ModuleContext, mode: &DataMode) -> Result<bool, AllocError>
    requires { IsContextOf cx.now }
    ensures { IfOk result (λ typed. IsTrue typed ↔ IsDataModeValid cx.now.candidate.now mode.now) }
{
    match mode {
        DataMode::Active(memory, offset) => {
            if !cx.context.has_memory(*memory) {
                return Ok(false);
            }
            is_const_typed(alloc, &cx.context, offset, PackedType::I32)
        }
        DataMode::Passive => Ok(true),
    }
}

/// Whether the data segment of this index is valid: where it is active its memory is there, and its offset is a constant of type i32.
pub(crate) fn is_valid(alloc: Global, cx: &ModuleContext, index: usize) -> Result<bool, AllocError>
    requires { IsContextOf cx.now }
    ensures { IfOk result (λ typed. IsTrue typed ↔ DataValid cx.now.candidate.now index) }
{
    match item_at(&cx.candidate.datas, index) {
        Some(segment) => is_mode_typed(alloc, cx, &segment.mode),
        None => Ok(false),
    }
}
