//! Names that stood before.
ghost use Rattle.std.specs.Prelude.{◌≡◌, ◌∷◌, List, OnOk, IfOk};
ghost use Rattle.s_syntax.specs.declared.name.Name.{Name as TheName};
ghost use Rattle.s_check.specs.Scopes.{is_among};
ghost use Rattle.s_check.specs.Views.{HasNames};

use s_syntax::Name;
use std::alloc::AllocError;
use std::collections::BTreeSet;

/// Whether a name is in the set, which has it from then on.
pub(crate) fn noted_before<'a>(
    before: &mut BTreeSet<&'a [u8]>,
    name: &'a Name,
) -> Result<bool, AllocError>
    ensures value { IfOk result (λ again. (names : List TheName) → HasNames before.old names → again ≡ is_among names name.now) }
    ensures more { OnOk result ((names : List TheName) → HasNames before.old names → HasNames before.new (name.now ∷ names)) }
{
    Ok(!before.insert(name.as_bytes())?)
}
