//! Validity of tables.
ghost use Rattle.std.specs.Prelude.{◌≡◌, ◌↔◌, IfOk, IsTrue};
ghost use Rattle.w_rules.specs.Valid.{TableValid, IsInitValid, IsTableTypeValid};
ghost use Rattle.w_items.specs.Judged.{IsContextOf};

use crate::by_index::item_at;
use crate::context::ModuleContext;
use crate::limits::{MOST_ELEMENTS, are_limits_valid};
use std::alloc::{AllocError, Global};
use w_bodies::is_const_typed;
use w_rules::has_heap;
use w_syntax::{Body, TableType};
use w_types::{PackedType, RefType};

/// Whether the type of a table is valid (Core, validation, table types).
pub(crate) fn is_table_type_valid(cx: &ModuleContext, kind: TableType) -> bool
    ensures { IsTrue result ↔ IsTableTypeValid cx.now.candidate.now kind }
{
    are_limits_valid(MOST_ELEMENTS, kind.limits)
        && has_heap(cx.candidate.types.type_count(), kind.element.heap)
}

// Whether what the elements of a table begin with is constant and of this type; null where nothing is said.
fn is_init_typed(
    alloc: Global,
    cx: &ModuleContext,
    kind: RefType,
    init: &Option<Body>,
) -> Result<bool, AllocError>
    requires { IsContextOf cx.now }
    ensures { IfOk result (λ typed. IsTrue typed ↔ IsInitValid cx.now.candidate.now kind init.now) }
{
    match init {
        Some(body) => is_const_typed(alloc, &cx.context, body, PackedType::reference(kind)),
        None => Ok(kind.nullable),
    }
}

/// Whether the table of this index is valid: its type is, and what its elements begin with is constant and of their type.
pub(crate) fn is_valid(alloc: Global, cx: &ModuleContext, index: usize) -> Result<bool, AllocError>
    requires { IsContextOf cx.now }
    ensures { IfOk result (λ typed. IsTrue typed ↔ TableValid cx.now.candidate.now index) }
{
    let Some(table) = item_at(&cx.candidate.tables, index) else {
        return Ok(false);
    };
    if !is_table_type_valid(cx, table.kind) {
        return Ok(false);
    }
    is_init_typed(alloc, cx, table.kind.element, &table.init)
}
