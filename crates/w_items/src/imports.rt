//! Validity of imports.
ghost use Rattle.std.specs.Prelude.{◌≡◌, ◌↔◌, IsTrue};
ghost use Rattle.w_rules.specs.Valid.{ImportValid, IsExternValid};

use crate::by_index::item_at;
use crate::context::ModuleContext;
use crate::limits::{MOST_PAGES, are_limits_valid};
use crate::tables::is_table_type_valid;
use crate::types::is_function_type;
use w_rules::has_type;
use w_syntax::ExternType;

// Whether the type of what is imported is valid (Core, validation, external types).
fn is_extern_valid(cx: &ModuleContext, kind: ExternType) -> bool
    ensures { IsTrue result ↔ IsExternValid cx.now.candidate.now kind }
{
    match kind {
        ExternType::Func(type_index) => is_function_type(cx.candidate, type_index),
        ExternType::Table(kind) => is_table_type_valid(cx, kind),
        ExternType::Memory(limits) => are_limits_valid(MOST_PAGES, limits),
        ExternType::Global(kind) => has_type(cx.candidate.types.type_count(), kind.kind),
        ExternType::Tag(tag) => is_function_type(cx.candidate, tag.type_index),
    }
}

/// Whether the import of this index is valid: its type is.
pub(crate) fn is_valid(cx: &ModuleContext, index: usize) -> bool
    ensures { IsTrue result ↔ ImportValid cx.now.candidate.now index }
{
    match item_at(&cx.candidate.imports, index) {
        Some(import) => is_extern_valid(cx, import.kind),
        None => false,
    }
}
