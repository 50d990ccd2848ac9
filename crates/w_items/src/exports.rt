//! Validity of exports.
ghost use Rattle.std.specs.Prelude.{◌≡◌, ◌↔◌, IfOk, IsTrue};
ghost use Rattle.w_rules.specs.Valid.{ExportItem, IsThere};
ghost use Rattle.w_items.specs.Firsts.{IsFirst};
ghost use Rattle.w_items.specs.Judged.{IsContextOf};

use crate::context::ModuleContext;
use std::alloc::{AllocError, Global};
use std::collections::BTreeSet;
use w_syntax::ExternIndex;

// Whether what is exported is there.
fn is_there(cx: &ModuleContext, index: ExternIndex) -> bool
    requires { IsContextOf cx.now }
    ensures { IsTrue result ↔ IsThere cx.now.candidate.now index }
{
    match index {
        ExternIndex::Func(function) => (function as usize) < cx.context.functions.len(),
        ExternIndex::Table(table) => (table as usize) < cx.context.tables.len(),
        ExternIndex::Memory(memory) => (memory as usize) < cx.context.memories.len(),
        ExternIndex::Global(global) => (global as usize) < cx.context.globals.len(),
        ExternIndex::Tag(tag) => (tag as usize) < cx.context.tags.len(),
    }
}

/// The first export that is not valid, if there is one: what it exports is not there, or its name stands at a lower index.
pub(crate) fn first_invalid_export(
    alloc: Global,
    cx: &ModuleContext,
) -> Result<Option<usize>, AllocError>
    requires { IsContextOf cx.now }
    ensures { IfOk result (λ first. IsFirst cx.now.candidate.now ExportItem first) }
{
    let mut names: BTreeSet<&str> = BTreeSet::new(alloc);
    for (index, export) in cx.candidate.exports.as_slice().iter().enumerate() {
        if !is_there(cx, export.index) {
            return Ok(Some(index));
        }
        if !names.insert(export.name.as_str())? {
            return Ok(Some(index));
        }
    }
    Ok(None)
}
