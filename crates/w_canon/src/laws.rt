//! Laws of the definitions, each the contract of a function that does nothing.
ghost use Rattle.std.specs.Prelude.{◌≡◌, ℕ, List, Some, slice_get};
ghost use Rattle.w_types.specs.declared.types.CompType.{CompType};
ghost use Rattle.w_types.specs.declared.types.RecGroup.{RecGroup};
ghost use Rattle.w_types.specs.Groups.{types_of};
ghost use Rattle.w_canon.specs.Relations.{IsReflexive, IsSymmetric, IsTransitive};
ghost use Rattle.w_canon.specs.Equivalence.{SameIndex};
ghost use Rattle.w_canon.specs.Matching.{HasSupertype, IndexMatches, ValMatches, ResultMatches, FuncMatches, CompMatches};
ghost use Rattle.w_canon.specs.Supertypes.{KeepsKinds, KeepsComposites};

/// Equivalence of types is one.
pub fn same_is_an_equivalence()
    ensures reflexive { (gs : List RecGroup) → IsReflexive (SameIndex gs) }
    ensures symmetric { (gs : List RecGroup) → IsSymmetric (SameIndex gs) }
    ensures transitive { (gs : List RecGroup) → IsTransitive (SameIndex gs) }
{}

/// A type that is equivalent to one with a supertype has an equivalent one.
pub fn equivalent_types_have_equivalent_supertypes()
    ensures { (gs : List RecGroup) (x y z : ℕ) → SameIndex gs x y → HasSupertype gs y z
        → (v : ℕ) × HasSupertype gs x v × SameIndex gs v z }
{}

/// Matching of indices is a preorder, which equivalent types keep.
pub fn index_matching_is_a_preorder()
    ensures reflexive { (gs : List RecGroup) → IsReflexive (IndexMatches gs) }
    ensures transitive { (gs : List RecGroup) → IsTransitive (IndexMatches gs) }
    ensures kept { (gs : List RecGroup) (x y : ℕ) → SameIndex gs x y → IndexMatches gs x y }
{}

/// Matching of value types is a preorder, where each supertype is of its subtypes' kind.
pub fn val_matching_is_a_preorder()
    ensures reflexive { (gs : List RecGroup) → IsReflexive (ValMatches gs) }
    ensures transitive { (gs : List RecGroup) → KeepsKinds gs → IsTransitive (ValMatches gs) }
{}

/// Matching of result types is a preorder, where each supertype is of its subtypes' kind.
pub fn result_matching_is_a_preorder()
    ensures reflexive { (gs : List RecGroup) → IsReflexive (ResultMatches gs) }
    ensures transitive { (gs : List RecGroup) → KeepsKinds gs → IsTransitive (ResultMatches gs) }
{}

/// Matching of function types is a preorder, where each supertype is of its subtypes' kind.
pub fn func_matching_is_a_preorder()
    ensures reflexive { (gs : List RecGroup) → IsReflexive (FuncMatches gs) }
    ensures transitive { (gs : List RecGroup) → KeepsKinds gs → IsTransitive (FuncMatches gs) }
{}

/// Indices that match have composite types that match, where equivalent types' and supertypes' do; then kinds are kept too.
#[tactic(auto, using(crate::proofs::Composites::composites_match, crate::proofs::Composites::kinds_kept))]
pub fn composites_of_matching_indices_match()
    ensures composites { (gs : List RecGroup) → KeepsComposites gs → (x y : ℕ) (a b : CompType) → IndexMatches gs x y
        → slice_get (types_of gs) x ≡ Some a → slice_get (types_of gs) y ≡ Some b → CompMatches gs a b }
    ensures kinds { (gs : List RecGroup) → KeepsComposites gs → KeepsKinds gs }
{}
