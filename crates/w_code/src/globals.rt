//! Globals (Core, binary format, global section).
ghost use Rattle.w_syntax.specs.Fields.{global};

use crate::bodies::expr_at;
use std::alloc::{AllocError, Global};
use w_fields::{Field, globaltype_at};
use w_syntax::GlobalVariable;

/// A global, as a kind of field (Core, binary format, global section).
pub struct GlobalField;

impl Field for GlobalField {
    type Item = GlobalVariable;

    ghost format = { global };

    #[tactic(auto, unfolding(w_syntax::specs::Fields::global, w_syntax::specs::Fields::expr))]
    fn read(
        alloc: Global,
        bytes: &[u8],
        at: usize,
    ) -> Result<Option<(GlobalVariable, usize)>, AllocError> {
        let Some((kind, next)) = globaltype_at(bytes, at) else {
            return Ok(None);
        };
        let Some((init, next)) = expr_at(alloc, bytes, next)? else {
            return Ok(None);
        };
        Ok(Some((GlobalVariable { kind, init }, next)))
    }
}
