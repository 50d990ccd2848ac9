//! Matching of types.
ghost use Rattle.std.specs.Prelude.{◌≡◌, ◌↔◌, IsTrue, List};
ghost use Rattle.w_types.specs.declared.types.RecGroup.{RecGroup};
ghost use Rattle.w_canon.specs.Matching.{IsFunc, IsCont, HeapMatches, RefMatches, ValMatches, ResultMatches, FuncMatches, CompMatches};
ghost use Rattle.w_canon.specs.IsClassesOf.{IsClassesOf};
ghost use Rattle.w_canon.specs.Tests.{kind_test, heap_test, ref_test, val_test, result_test, func_test, comp_test};
ghost use Rattle.w_canon.specs.Shapes.{shapes_test};
ghost use Rattle.w_canon.specs.declared.entry.Kind.TheVariants as kind;

use crate::classes::Classes;
use crate::entry::Kind;
use crate::rows::Comparison;
use crate::shape::{Shape, keeps_null, shape_of};
use w_types::{CompType, FuncType, HeapType, PackedType, RefType};

impl Classes {
    // Whether the type of this index is a function type.
    fn is_func(&self, index: u32) -> bool
        ensures computed { result ≡ kind_test self.now index kind.Func }
        ensures related { (gs : List RecGroup) → IsClassesOf gs self.now → (IsTrue result ↔ IsFunc gs index) }
    {
        self.is_of_kind(index, Kind::Func)
    }

    // Whether the type of this index is a continuation type.
    fn is_cont(&self, index: u32) -> bool
        ensures computed { result ≡ kind_test self.now index kind.Cont }
        ensures related { (gs : List RecGroup) → IsClassesOf gs self.now → (IsTrue result ↔ IsCont gs index) }
    {
        self.is_of_kind(index, Kind::Cont)
    }

    // Whether types of these shapes and indices match, where null is no matter.
    #[inline(always)]
    fn matches_shape(&self, one: Shape, x: u32, other: Shape, y: u32) -> bool
        ensures { result ≡ shapes_test self.now one x other y }
    {
        match one {
            Shape::I32 => matches!(other, Shape::I32),
            Shape::I64 => matches!(other, Shape::I64),
            Shape::Func => matches!(other, Shape::Func),
            Shape::NoFunc => match other {
                Shape::Func | Shape::NoFunc => true,
                Shape::Index => self.is_func(y),
                Shape::I32 | Shape::I64 | Shape::Cont | Shape::NoCont => false,
            },
            Shape::Cont => matches!(other, Shape::Cont),
            Shape::NoCont => match other {
                Shape::Cont | Shape::NoCont => true,
                Shape::Index => self.is_cont(y),
                Shape::I32 | Shape::I64 | Shape::Func | Shape::NoFunc => false,
            },
            Shape::Index => match other {
                Shape::Func => self.is_func(x),
                Shape::Cont => self.is_cont(x),
                Shape::Index => self.matches_index(x, y),
                Shape::I32 | Shape::I64 | Shape::NoFunc | Shape::NoCont => false,
            },
        }
    }

    /// Whether a value type matches another (Core, validation, matching). It goes by the numbers of both.
    pub fn matches_val(&self, a: PackedType, b: PackedType) -> bool
        ensures computed { result ≡ val_test self.now a b }
        ensures related { (gs : List RecGroup) → IsClassesOf gs self.now → (IsTrue result ↔ ValMatches gs a b) }
    {
        keeps_null(a, b) && self.matches_shape(shape_of(a), a.index(), shape_of(b), b.index())
    }

    /// Whether a reference type matches another (Core, validation, matching): one that may be null matches none that may not.
    pub fn matches_ref(&self, a: RefType, b: RefType) -> bool
        ensures computed { result ≡ ref_test self.now a b }
        ensures related { (gs : List RecGroup) → IsClassesOf gs self.now → (IsTrue result ↔ RefMatches gs a b) }
    {
        self.matches_val(PackedType::reference(a), PackedType::reference(b))
    }

    /// Whether a heap type matches another (Core, validation, matching; the explainer adds continuations).
    pub fn matches_heap(&self, a: HeapType, b: HeapType) -> bool
        ensures computed { result ≡ heap_test self.now a b }
        ensures related { (gs : List RecGroup) → IsClassesOf gs self.now → (IsTrue result ↔ HeapMatches gs a b) }
    {
        self.matches_ref(RefType::non_null(a), RefType::non_null(b))
    }

    /// Whether types match others, each the one at its place, and they are as many (Core, validation, matching).
    pub fn matches_result(&self, a: &[PackedType], b: &[PackedType]) -> bool
        ensures computed { result ≡ result_test self.now a.now b.now }
        ensures related { (gs : List RecGroup) → IsClassesOf gs self.now → (IsTrue result ↔ ResultMatches gs a.now b.now) }
    {
        self.compare_rows(Comparison::Matching, a, b)
    }

    /// Whether a function type matches another: it takes what the other takes, and gives what the other gives (Core,
    /// validation, matching).
    pub fn matches_func(&self, a: &FuncType, b: &FuncType) -> bool
        ensures computed { result ≡ func_test self.now a.now b.now }
        ensures related { (gs : List RecGroup) → IsClassesOf gs self.now → (IsTrue result ↔ FuncMatches gs a.now b.now) }
    {
        self.matches_result(b.params.as_slice(), a.params.as_slice())
            && self.matches_result(a.results.as_slice(), b.results.as_slice())
    }

    /// Whether a composite type matches another (Core, validation, matching; the explainer adds continuations): of function types as
    /// above, and a continuation type matches where its function type's index does.
    pub fn matches_comp(&self, a: &CompType, b: &CompType) -> bool
        ensures computed { result ≡ comp_test self.now a.now b.now }
        ensures related { (gs : List RecGroup) → IsClassesOf gs self.now → (IsTrue result ↔ CompMatches gs a.now b.now) }
    {
        match (a, b) {
            (CompType::Func(one), CompType::Func(other)) => self.matches_func(one, other),
            (CompType::Cont(one), CompType::Cont(other)) => self.matches_index(*one, *other),
            _ => false,
        }
    }
}
