//! Equality of types whose indices may differ where their types are equivalent.
ghost use Rattle.std.specs.Prelude.{◌≡◌, ◌↔◌, IsTrue, List};
ghost use Rattle.w_types.specs.declared.types.RecGroup.{RecGroup};
ghost use Rattle.w_canon.specs.Equality.{ValEqual, ResultEqual};
ghost use Rattle.w_canon.specs.IsClassesOf.{IsClassesOf};
ghost use Rattle.w_canon.specs.Tests.{val_same_test, result_same_test};

use crate::classes::Classes;
use crate::rows::Comparison;
use w_types::PackedType;

impl Classes {
    /// Whether value types are equal, where indices are equal if their types are equivalent (Core, types, recursive types).
    /// A kind without an index has 0 in its place.
    pub fn equals_val(&self, a: PackedType, b: PackedType) -> bool
        ensures computed { result ≡ val_same_test self.now a b }
        ensures related { (gs : List RecGroup) → IsClassesOf gs self.now → (IsTrue result ↔ ValEqual gs a b) }
    {
        a.kind() == b.kind() && self.same(a.index(), b.index())
    }

    /// Whether types equal others, each the one at its place, and they are as many, where indices are equal if their types are
    /// equivalent (Core, types, recursive types).
    pub fn equals_result(&self, a: &[PackedType], b: &[PackedType]) -> bool
        ensures computed { result ≡ result_same_test self.now a.now b.now }
        ensures related { (gs : List RecGroup) → IsClassesOf gs self.now → (IsTrue result ↔ ResultEqual gs a.now b.now) }
    {
        self.compare_rows(Comparison::Equality, a, b)
    }
}
