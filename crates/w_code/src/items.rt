//! The items of element segments (Core, binary format, element section). Most are one `ref.func` or one `ref.null`: these are read
//! without a builder of bodies.
ghost use Rattle.std.specs.Prelude.{◌≡◌, ◌≤◌, Some, IfOk, IfSome, drop, length};
ghost use Rattle.w_leb.specs.Format.{ReadsAt, byte};
ghost use Rattle.w_leb.specs.Formats.{vec};
ghost use Rattle.w_syntax.specs.Fields.{expr, function_item};

use crate::bodies::expr_at;
use std::alloc::{AllocError, Global};
use w_fields::{Field, IndexField, heaptype_at, vec_at};
use w_leb::{read_byte, read_u32};
use w_syntax::{Item, Items};

// The place behind an end that stands here.
fn end_at(bytes: &[u8], at: usize) -> Option<usize>
    ensures { IfSome result (λ next. ReadsAt byte bytes.now at (Some (0x0B, next))) }
{
    match read_byte(bytes, at) {
        Some((0x0B, next)) => Some(next),
        _ => None,
    }
}

// The item at a place, where it is one `ref.func` or one `ref.null`.
fn short_at(bytes: &[u8], at: usize) -> Option<(Item, usize)>
    ensures { IfSome result (λ found. ReadsAt expr.read bytes.now at (Some found)) }
{
    let (tag, next) = read_byte(bytes, at)?;
    match tag {
        0xD0 => {
            let (heap, next) = heaptype_at(bytes, next)?;
            let end = end_at(bytes, next)?;
            Some((Item::null(heap), end))
        }
        0xD2 => {
            let (function, next) = read_u32(bytes, next)?;
            let end = end_at(bytes, next)?;
            Some((Item::function(function), end))
        }
        _ => None,
    }
}

// An item that is spelled as an expression, as a kind of field.
struct ItemField;

impl Field for ItemField {
    type Item = Item;

    ghost format = { expr };

    #[tactic(auto, unfolding(w_syntax::specs::Fields::expr))]
    fn read(alloc: Global, bytes: &[u8], at: usize) -> Result<Option<(Item, usize)>, AllocError> {
        if let Some(found) = short_at(bytes, at) {
            return Ok(Some(found));
        }
        let Some((body, next)) = expr_at(alloc, bytes, at)? else {
            return Ok(None);
        };
        Ok(Some((Item::expression(alloc, body)?, next)))
    }
}

// Functions by their indices, each of which stands for a reference to it, as a kind of field.
pub(crate) struct FunctionItemsField;

impl Field for FunctionItemsField {
    type Item = Items;

    ghost format = { vec function_item };

    fn read(alloc: Global, bytes: &[u8], at: usize) -> Result<Option<(Items, usize)>, AllocError> {
        let Some((functions, next)) = vec_at::<IndexField>(alloc, bytes, at)? else {
            return Ok(None);
        };
        Ok(Some((Items::of_functions(functions), next)))
    }
}

// Expressions, as a kind of field.
pub(crate) struct ExpressionItemsField;

impl Field for ExpressionItemsField {
    type Item = Items;

    ghost format = { vec expr };

    fn read(alloc: Global, bytes: &[u8], at: usize) -> Result<Option<(Items, usize)>, AllocError> {
        let Some((items, next)) = vec_at::<ItemField>(alloc, bytes, at)? else {
            return Ok(None);
        };
        Ok(Some((Items::of_items(items), next)))
    }
}
