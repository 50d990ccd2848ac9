//! Element segments (Core, binary format, element section).
ghost use Rattle.std.specs.Prelude.{IfOk};
ghost use Rattle.w_leb.specs.Format.{ReadsAt};
ghost use Rattle.w_leb.specs.Formats.{◌⊗◌, ◌⇒◌, number, vec};
ghost use Rattle.w_syntax.specs.Types.{reftype};
ghost use Rattle.w_syntax.specs.Fields.{expr, elemkind, function_item, active, elem};

use crate::bodies::expr_at;
use crate::items::{ExpressionItemsField, FunctionItemsField};
use std::alloc::{AllocError, Global};
use w_fields::{Field, reftype_at};
use w_leb::{read_byte, read_u32};
use w_syntax::{Elem, ElemMode, Items};
use w_types::RefType;

// The kind of a segment that lists functions.
#[tactic(auto, unfolding(w_syntax::specs::Fields::elemkind))]
fn elemkind_at(bytes: &[u8], at: usize) -> Option<(RefType, usize)>
    ensures { ReadsAt elemkind.read bytes.now at result }
{
    let Some((kind, next)) = read_byte(bytes, at) else {
        return None;
    };
    if kind != 0x00 {
        return None;
    }
    Some((RefType::FUNC, next))
}

// A kind, and functions.
struct FunctionsField;

impl Field for FunctionsField {
    type Item = (RefType, Items);

    ghost format = { elemkind ⊗ vec function_item };

    fn read(
        alloc: Global,
        bytes: &[u8],
        at: usize,
    ) -> Result<Option<((RefType, Items), usize)>, AllocError> {
        let Some((kind, next)) = elemkind_at(bytes, at) else {
            return Ok(None);
        };
        let Some((items, next)) = FunctionItemsField::read(alloc, bytes, next)? else {
            return Ok(None);
        };
        Ok(Some(((kind, items), next)))
    }
}

// A type, and expressions.
struct ExpressionsField;

impl Field for ExpressionsField {
    type Item = (RefType, Items);

    ghost format = { reftype ⊗ vec expr };

    fn read(
        alloc: Global,
        bytes: &[u8],
        at: usize,
    ) -> Result<Option<((RefType, Items), usize)>, AllocError> {
        let Some((kind, next)) = reftype_at(bytes, at) else {
            return Ok(None);
        };
        let Some((items, next)) = ExpressionItemsField::read(alloc, bytes, next)? else {
            return Ok(None);
        };
        Ok(Some(((kind, items), next)))
    }
}

// What stands in a segment that is not active: a kind and items.
fn listed_at<F: Field<Item = (RefType, Items)>>(
    alloc: Global,
    bytes: &[u8],
    at: usize,
    mode: ElemMode,
) -> Result<Option<(Elem, usize)>, AllocError>
    ensures { IfOk result (ReadsAt (F.format ⇒ λ p. record { kind = p.0; items = p.1; mode = mode }).read bytes.now at) }
{
    let Some(((kind, items), next)) = F::read(alloc, bytes, at)? else {
        return Ok(None);
    };
    Ok(Some((Elem { kind, items, mode }, next)))
}

// What stands in an active segment of the first table: a place, and items of one kind.
#[tactic(auto, unfolding(w_syntax::specs::Fields::expr))]
fn in_first_table_at<F: Field<Item = Items>>(
    alloc: Global,
    bytes: &[u8],
    at: usize,
    kind: RefType,
) -> Result<Option<(Elem, usize)>, AllocError>
    ensures { IfOk result (ReadsAt (expr ⊗ F.format ⇒ λ p. active 0 p.0 kind p.1).read bytes.now at) }
{
    let Some((place, next)) = expr_at(alloc, bytes, at)? else {
        return Ok(None);
    };
    let Some((items, next)) = F::read(alloc, bytes, next)? else {
        return Ok(None);
    };
    let mode = ElemMode::Active(0, place);
    Ok(Some((Elem { kind, items, mode }, next)))
}

// What stands in an active segment that names its table: the table, a place, a kind and items.
#[tactic(auto, unfolding(w_syntax::specs::Fields::expr))]
fn in_table_at<F: Field<Item = (RefType, Items)>>(
    alloc: Global,
    bytes: &[u8],
    at: usize,
) -> Result<Option<(Elem, usize)>, AllocError>
    ensures { IfOk result (ReadsAt (number 32 ⊗ expr ⊗ F.format ⇒ λ p. active p.0 p.1.0 p.1.1.0 p.1.1.1).read bytes.now at) }
{
    let Some((table, next)) = read_u32(bytes, at) else {
        return Ok(None);
    };
    let Some((place, next)) = expr_at(alloc, bytes, next)? else {
        return Ok(None);
    };
    let Some(((kind, items), next)) = F::read(alloc, bytes, next)? else {
        return Ok(None);
    };
    let mode = ElemMode::Active(table, place);
    Ok(Some((Elem { kind, items, mode }, next)))
}

/// An element segment, as a kind of field (Core, binary format, element section).
pub struct ElemField;

impl Field for ElemField {
    type Item = Elem;

    ghost format = { elem };

    #[tactic(auto, unfolding(w_syntax::specs::Fields::elem))]
    fn read(alloc: Global, bytes: &[u8], at: usize) -> Result<Option<(Elem, usize)>, AllocError> {
        let Some((form, next)) = read_u32(bytes, at) else {
            return Ok(None);
        };
        match form {
            0 => in_first_table_at::<FunctionItemsField>(alloc, bytes, next, RefType::FUNC),
            1 => listed_at::<FunctionsField>(alloc, bytes, next, ElemMode::Passive),
            2 => in_table_at::<FunctionsField>(alloc, bytes, next),
            3 => listed_at::<FunctionsField>(alloc, bytes, next, ElemMode::Declarative),
            4 => in_first_table_at::<ExpressionItemsField>(alloc, bytes, next, RefType::FUNCREF),
            5 => listed_at::<ExpressionsField>(alloc, bytes, next, ElemMode::Passive),
            6 => in_table_at::<ExpressionsField>(alloc, bytes, next),
            7 => listed_at::<ExpressionsField>(alloc, bytes, next, ElemMode::Declarative),
            _ => Ok(None),
        }
    }
}
