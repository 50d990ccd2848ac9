//! Items of the kinds of which a module may have several, each judged by its index.
ghost use Rattle.std.specs.Prelude.{◌≡◌, ◌↔◌, IfOk, IsTrue};
ghost use Rattle.w_rules.specs.Valid.{ItemValid};
ghost use Rattle.w_items.specs.Firsts.{IsFirst};
ghost use Rattle.w_items.specs.Judged.{IsContextOf};
ghost use Rattle.w_items.specs.Kinds.{item_of, count_of};

use crate::context::ModuleContext;
use crate::{datas, elements, globals, imports, tables, tags};
use std::alloc::{AllocError, Global};
use w_syntax::Module;

/// A kind of which a module may have several items.
#[derive(Clone, Copy)]
pub(crate) enum ItemKind {
    Import,
    Table,
    Tag,
    Global,
    Element,
    Data,
}

// How many items of this kind the module has.
fn count(candidate: &Module, kind: ItemKind) -> usize
    ensures { result ≡ count_of candidate.now kind }
{
    match kind {
        ItemKind::Import => candidate.imports.len(),
        ItemKind::Table => candidate.tables.len(),
        ItemKind::Tag => candidate.tags.len(),
        ItemKind::Global => candidate.globals.len(),
        ItemKind::Element => candidate.elements.len(),
        ItemKind::Data => candidate.datas.len(),
    }
}

// Whether the item of this kind and index is valid.
fn is_valid(
    alloc: Global,
    cx: &ModuleContext,
    kind: ItemKind,
    index: usize,
) -> Result<bool, AllocError>
    requires { IsContextOf cx.now }
    ensures { IfOk result (λ typed. IsTrue typed ↔ ItemValid cx.now.candidate.now (item_of kind index)) }
{
    match kind {
        ItemKind::Import => Ok(imports::is_valid(cx, index)),
        ItemKind::Table => tables::is_valid(alloc, cx, index),
        ItemKind::Tag => Ok(tags::is_valid(cx.candidate, index)),
        ItemKind::Global => globals::is_valid(alloc, cx, index),
        ItemKind::Element => elements::is_valid(alloc, cx, index),
        ItemKind::Data => datas::is_valid(alloc, cx, index),
    }
}

/// The first item of this kind that is not valid, if there is one.
pub(crate) fn first_invalid(
    alloc: Global,
    cx: &ModuleContext,
    kind: ItemKind,
) -> Result<Option<usize>, AllocError>
    requires { IsContextOf cx.now }
    ensures { IfOk result (λ first. IsFirst cx.now.candidate.now (item_of kind) first) }
{
    for index in 0..count(cx.candidate, kind) {
        if !is_valid(alloc, cx, kind, index)? {
            return Ok(Some(index));
        }
    }
    Ok(None)
}
