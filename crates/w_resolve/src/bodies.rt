//! Bodies with addresses in the place of indices (Core, execution, module instances).
ghost use Rattle.std.specs.Prelude.{◌≡◌, IfOk};
ghost use Rattle.w_link.specs.Resolved.{code_resolved};

use crate::instance::ModuleInstance;
use crate::packed::resolve_packed;
use std::alloc::{AllocError, Global};
use w_syntax::Body;

/// The body with addresses in the place of indices, changed where it lies. It fails only for want of memory.
pub fn resolve_body(
    alloc: Global,
    instance: &ModuleInstance,
    body: Body,
) -> Result<Body, AllocError>
    ensures { IfOk result (λ b. b ≡ code_resolved instance.now body) }
{
    let mut instrs = body.into_instrs();
    for packed in instrs.iter_mut() {
        resolve_packed(alloc, instance, packed)?;
    }
    Ok(Body::new(instrs))
}
