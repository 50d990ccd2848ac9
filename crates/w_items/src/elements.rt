//! Validity of element segments.
ghost use Rattle.std.specs.Prelude.{◌≡◌, ◌↔◌, All, IfOk, IsTrue};
ghost use Rattle.w_types.specs.declared.types.ValType.TheVariants as val;
ghost use Rattle.w_syntax.specs.Code.{Code};
ghost use Rattle.w_syntax.specs.Items.{code_of};
ghost use Rattle.w_rules.specs.Bodies.{ConstTyped};
ghost use Rattle.w_rules.specs.Spaces.{context_of};
ghost use Rattle.w_rules.specs.Valid.{ElementValid, IsElemModeValid};
ghost use Rattle.w_items.specs.Judged.{IsContextOf};

use crate::by_index::item_at;
use crate::context::ModuleContext;
use std::alloc::{AllocError, Global};
use w_bodies::{is_const_typed, is_reference_typed};
use w_rules::has_heap;
use w_syntax::{ElemMode, ItemView, Items, ReferenceOp};
use w_types::{PackedType, RefType};

// Whether a segment of this type fits its table, where it is active.
fn is_mode_typed(
    alloc: Global,
    cx: &ModuleContext,
    kind: RefType,
    mode: &ElemMode,
) -> Result<bool, AllocError>
    requires { IsContextOf cx.now }
    ensures { IfOk result (λ typed. IsTrue typed ↔ IsElemModeValid cx.now.candidate.now kind mode.now) }
{
    match mode {
        ElemMode::Active(table, offset) => {
            let Some(table) = cx.context.table(*table) else {
                return Ok(false);
            };
            if !cx.context.classes.matches_ref(kind, table.element) {
                return Ok(false);
            }
            is_const_typed(alloc, &cx.context, offset, PackedType::I32)
        }
        ElemMode::Passive | ElemMode::Declarative => Ok(true),
    }
}

// Whether an item is constant and of this type.
fn is_item_typed(
    alloc: Global,
    cx: &ModuleContext,
    kind: RefType,
    item: ItemView<'_>,
) -> Result<bool, AllocError>
    requires { IsContextOf cx.now }
    ensures { IfOk result (λ typed. IsTrue typed
        ↔ ConstTyped (context_of cx.now.candidate.now) (code_of item.entry) (val.Ref kind)) }
{
    let kind = PackedType::reference(kind);
    match item {
        ItemView::Function(function) => {
            Ok(is_reference_typed(&cx.context, ReferenceOp::Func(function), kind))
        }
        ItemView::Null(heap) => Ok(is_reference_typed(&cx.context, ReferenceOp::Null(heap), kind)),
        ItemView::Expression(body) => is_const_typed(alloc, &cx.context, body, kind),
    }
}

// Whether each of these items is constant and of this type.
fn are_items_typed(
    alloc: Global,
    cx: &ModuleContext,
    kind: RefType,
    items: &Items,
) -> Result<bool, AllocError>
    requires { IsContextOf cx.now }
    ensures { IfOk result (λ typed. IsTrue typed
        ↔ All (λ (k : Code). ConstTyped (context_of cx.now.candidate.now) k (val.Ref kind)) items.now) }
{
    for place in 0..items.len() {
        if !is_item_typed(alloc, cx, kind, items.at(place))? {
            return Ok(false);
        }
    }
    Ok(true)
}

/// Whether the element segment of this index is valid: its type is, its items are constant and of this type, and where it is active
/// its table and its offset fit.
pub(crate) fn is_valid(alloc: Global, cx: &ModuleContext, index: usize) -> Result<bool, AllocError>
    requires { IsContextOf cx.now }
    ensures { IfOk result (λ typed. IsTrue typed ↔ ElementValid cx.now.candidate.now index) }
{
    let Some(element) = item_at(&cx.candidate.elements, index) else {
        return Ok(false);
    };
    if !has_heap(cx.candidate.types.type_count(), element.kind.heap) {
        return Ok(false);
    }
    if !is_mode_typed(alloc, cx, element.kind, &element.mode)? {
        return Ok(false);
    }
    are_items_typed(alloc, cx, element.kind, &element.items)
}
