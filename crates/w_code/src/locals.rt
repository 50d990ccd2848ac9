//! Locals, read and joined (Core, binary format, code section).
ghost use Rattle.std.specs.Prelude.{IfOk};
ghost use Rattle.w_leb.specs.Format.{ReadsAt};
ghost use Rattle.w_syntax.specs.Fields.{run as run_format, locals};

use std::alloc::{AllocError, Global};
use w_fields::{Field, valtype_at, vec_at};
use w_leb::read_u32;
use w_syntax::{LocalRun, Locals};

/// So many locals of one type, as a kind of field (Core, binary format, code section).
pub struct LocalRunField;

impl Field for LocalRunField {
    type Item = LocalRun;

    ghost format = { run_format };

    #[tactic(auto, unfolding(w_syntax::specs::Fields::run))]
    fn read(
        _alloc: Global,
        bytes: &[u8],
        at: usize,
    ) -> Result<Option<(LocalRun, usize)>, AllocError> {
        let Some((count, next)) = read_u32(bytes, at) else {
            return Ok(None);
        };
        let Some((kind, next)) = valtype_at(bytes, next) else {
            return Ok(None);
        };
        Ok(Some((LocalRun { count, kind }, next)))
    }
}

/// The locals of a function, joined.
#[tactic(auto, unfolding(w_syntax::specs::Fields::locals))]
pub(crate) fn locals_at(
    alloc: Global,
    bytes: &[u8],
    at: usize,
) -> Result<Option<(Locals, usize)>, AllocError>
    ensures { IfOk result (ReadsAt locals.read bytes.now at) }
{
    let Some((runs, next)) = vec_at::<LocalRunField>(alloc, bytes, at)? else {
        return Ok(None);
    };
    match Locals::of_runs(alloc, runs.into_vec())? {
        Some(locals) => Ok(Some((locals, next))),
        None => Ok(None),
    }
}
