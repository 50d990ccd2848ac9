//! Value types by their numbers.
ghost use Rattle.std.specs.Prelude.{◌≡◌};
ghost use Rattle.w_canon.specs.Shapes.{shape_of, null_test};

use w_types::PackedType;

/// What a value type is but for its index and whether it may be null.
#[derive(Clone, Copy)]
pub(crate) enum Shape {
    I32,
    I64,
    Func,
    NoFunc,
    Cont,
    NoCont,
    Index,
}

// The shape of each kind; those below 3 are of no value type.
static SHAPES: [Shape; 15] = [
    Shape::I32,
    Shape::I32,
    Shape::I32,
    Shape::I32,
    Shape::I64,
    Shape::Func,
    Shape::Func,
    Shape::NoFunc,
    Shape::NoFunc,
    Shape::Cont,
    Shape::Cont,
    Shape::NoCont,
    Shape::NoCont,
    Shape::Index,
    Shape::Index,
];

/// The shape of a type. It is looked up, since a match would compare the kind again and again.
#[tactic(auto, using(crate::proofs::ShapesOfTypes::kind_below, crate::proofs::ShapesOfTypes::shape_at))]
#[inline(always)]
pub(crate) fn shape_of(kind: PackedType) -> Shape
    ensures { result ≡ shape_of kind }
{
    SHAPES[kind.kind() as usize]
}

/// Whether a type may stand for another where null is concerned: the kinds of references that may be null are even. Of numbers it tells
/// nothing that their shapes don't.
#[inline(always)]
pub(crate) fn keeps_null(a: PackedType, b: PackedType) -> bool
    ensures { result ≡ null_test a b }
{
    a.kind() % 2 == 1 || b.kind() % 2 == 0
}
