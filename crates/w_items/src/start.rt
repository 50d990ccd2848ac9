//! Validity of the start.
ghost use Rattle.std.specs.Prelude.{◌≡◌, IsFalse, IsSome, IsTrue};
ghost use Rattle.w_rules.specs.Valid.{StartValid};
ghost use Rattle.w_items.specs.Judged.{IsContextOf};

use crate::context::ModuleContext;

/// Whether the start is valid, where there is one: its function takes nothing and gives nothing.
pub(crate) fn is_start_valid(cx: &ModuleContext) -> bool
    requires { IsContextOf cx.now }
    ensures typed { IsTrue result → IsSome cx.now.candidate.now.start → StartValid cx.now.candidate.now }
    ensures invalid { IsFalse result → IsSome cx.now.candidate.now.start × (StartValid cx.now.candidate.now
        → ⊥) }
{
    let Some(function) = cx.candidate.start else {
        return true;
    };
    match cx.context.type_of_func(function) {
        Some(kind) => kind.params.len() == 0 && kind.results.len() == 0,
        None => false,
    }
}
