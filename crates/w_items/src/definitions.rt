//! The items of a module, all but its functions.
ghost use Rattle.std.specs.Prelude.{IfOk};
ghost use Rattle.w_rules.specs.Limits.{Within};
ghost use Rattle.w_rules.specs.Valid.{ExportItem, FunctionItem};
ghost use Rattle.w_items.specs.Firsts.{IsFaultBefore};
ghost use Rattle.w_items.specs.Judged.{IsContextBefore};

use crate::context::ModuleContext;
use crate::exports::first_invalid_export;
use crate::fault::ValidFault;
use crate::indexed::{ItemKind, first_invalid};
use crate::memories::are_memories_valid;
use crate::start::is_start_valid;
use crate::types::first_invalid_type;
use std::alloc::{AllocError, Global};

// The first item before the exports that is not valid, if there is one.
#[tactic(auto, using(crate::proofs::JudgedContexts::judged_context))]
fn first_invalid_definition(
    alloc: Global,
    cx: &ModuleContext,
) -> Result<Option<ValidFault>, AllocError>
    requires whole { IsContextBefore cx.now }
    requires within { Within cx.now.candidate.now }
    ensures { IfOk result (λ first. IsFaultBefore cx.now.candidate.now (ExportItem 0) first) }
{
    if let Some(index) = first_invalid_type(cx) {
        return Ok(Some(ValidFault::TypeAt(index)));
    }
    if let Some(index) = first_invalid(alloc, cx, ItemKind::Import)? {
        return Ok(Some(ValidFault::Import(index)));
    }
    if let Some(index) = first_invalid(alloc, cx, ItemKind::Table)? {
        return Ok(Some(ValidFault::Table(index)));
    }
    if !are_memories_valid(cx) {
        return Ok(Some(ValidFault::Memory));
    }
    if let Some(index) = first_invalid(alloc, cx, ItemKind::Tag)? {
        return Ok(Some(ValidFault::Tag(index)));
    }
    if let Some(index) = first_invalid(alloc, cx, ItemKind::Global)? {
        return Ok(Some(ValidFault::Global(index)));
    }
    if let Some(index) = first_invalid(alloc, cx, ItemKind::Element)? {
        return Ok(Some(ValidFault::Element(index)));
    }
    if let Some(index) = first_invalid(alloc, cx, ItemKind::Data)? {
        return Ok(Some(ValidFault::Data(index)));
    }
    if !is_start_valid(cx) {
        return Ok(Some(ValidFault::Start));
    }
    Ok(None)
}

/// The first item before the functions that is not valid, if there is one, in the order of `ValidFault`.
#[tactic(auto, using(crate::proofs::JudgedContexts::judged_before))]
pub fn first_invalid_item(
    alloc: Global,
    cx: &ModuleContext,
) -> Result<Option<ValidFault>, AllocError>
    requires whole { IsContextBefore cx.now }
    requires within { Within cx.now.candidate.now }
    ensures { IfOk result (λ first. IsFaultBefore cx.now.candidate.now (FunctionItem 0) first) }
{
    if let Some(fault) = first_invalid_definition(alloc, cx)? {
        return Ok(Some(fault));
    }
    if let Some(index) = first_invalid_export(alloc, cx)? {
        return Ok(Some(ValidFault::Export(index)));
    }
    Ok(None)
}
