//! Functions (Core, binary format, code section).
ghost use Rattle.w_leb.specs.Format.{ReadsAt};
ghost use Rattle.w_syntax.specs.Fields.{func, code};

use crate::bodies::expr_at;
use crate::locals::locals_at;
use std::alloc::{AllocError, Global};
use w_fields::{Field, sized_at, whole_of};
use w_syntax::Func;

// What stands behind the size of a function: its locals, and an expression.
struct SizedFuncField;

impl Field for SizedFuncField {
    type Item = Func;

    ghost format = { func };

    #[tactic(auto, unfolding(w_syntax::specs::Fields::func, w_syntax::specs::Fields::expr))]
    fn read(alloc: Global, bytes: &[u8], at: usize) -> Result<Option<(Func, usize)>, AllocError> {
        let Some((locals, next)) = locals_at(alloc, bytes, at)? else {
            return Ok(None);
        };
        let Some((body, next)) = expr_at(alloc, bytes, next)? else {
            return Ok(None);
        };
        Ok(Some((Func { locals, body }, next)))
    }
}

/// The code of a function, as a kind of field: a size, and what fills it (Core, binary format, code section).
pub struct FuncField;

impl Field for FuncField {
    type Item = Func;

    ghost format = { code };

    #[tactic(auto, unfolding(w_syntax::specs::Fields::code))]
    fn read(alloc: Global, bytes: &[u8], at: usize) -> Result<Option<(Func, usize)>, AllocError> {
        let Some((start, end)) = sized_at(bytes, at) else {
            return Ok(None);
        };
        let Some(function) = whole_of::<SizedFuncField>(alloc, &bytes[start..end])? else {
            return Ok(None);
        };
        Ok(Some((function, end)))
    }
}
