//! The types of operands.
ghost use Rattle.std.specs.Prelude.{◌≡◌, IsTrue, List};
ghost use Rattle.w_types.specs.declared.types.ValType.TheVariants.{Ref};
ghost use Rattle.w_canon.specs.declared.entry.Entry.{Entry};
ghost use Rattle.w_rules.specs.Operands.{Known, Bottom, BottomRef};
ghost use Rattle.w_rows.specs.Words.{IsGiven};
ghost use Rattle.w_rows.specs.Operands.{without_class, with_all, seen};

use crate::words::{given_alone, given_word};
use w_canon::Classes;
use w_types::{HeapType, PackedType, RefType};

/// The type of an operand (Core, validation, value types), in 8 bytes: a value type, or one that only code which cannot be reached
/// makes. Its word tells which types it matches, so that rows are compared with no branch and no type looked up; `type_of` of
/// `specs/Operands.antt` is the type.
#[derive(Clone, Copy)]
pub struct Operand {
    pub(crate) word: u32,
    // of the type that it names, or 0
    pub(crate) index: u32,
}

/// The type of an operand as it is read.
#[derive(Clone, Copy)]
pub enum OperandView {
    Known(PackedType),
    /// Below all types.
    Bottom,
    /// A reference to the bottom heap type, below all references that may be null where it may.
    BottomRef(bool),
}

// A reference type, as it is read.
fn reference(nullable: bool, heap: HeapType) -> OperandView
    ensures { seen result ≡ Known (Ref (record { nullable = nullable; heap = heap })) }
{
    OperandView::Known(PackedType::reference(RefType { nullable, heap }))
}

// The type where no class is told.
fn without_class(mark: u32, nullable: bool) -> OperandView
    ensures { seen result ≡ without_class mark nullable }
{
    match mark {
        5 => reference(nullable, HeapType::NoFunc),
        3 => reference(nullable, HeapType::NoCont),
        1 => OperandView::BottomRef(nullable),
        _ => OperandView::Bottom,
    }
}

// The type where the bits of all classes are there.
fn with_all(mark: u32, nullable: bool, index: u32) -> OperandView
    ensures { seen result ≡ with_all mark nullable index }
{
    match mark {
        5 => reference(nullable, HeapType::Func),
        3 => reference(nullable, HeapType::Cont),
        _ => reference(nullable, HeapType::Index(index)),
    }
}

// The word of a value type where it is given. That of a type which names none is looked up.
#[tactic(auto, using(crate::proofs::WordsGiven::given_alone))]
#[inline(always)]
fn word_of(classes: &Classes, kind: PackedType) -> u32
    ensures { IsGiven classes.now kind result }
{
    if kind.kind() < 13 {
        given_alone(kind)
    } else {
        given_word(classes, kind)
    }
}

impl Operand {
    ghost use Rattle.std.specs.Prelude.{◌≡◌, IsTrue, List};
    ghost use Rattle.w_canon.specs.declared.entry.Entry.{Entry};
    ghost use Rattle.w_types.specs.PackedTypes.{index_of};
    ghost use Rattle.w_rules.specs.Operands.{Known, BottomRef};
    ghost use Rattle.w_rows.specs.Words.{IsGiven};
    ghost use Rattle.w_rows.specs.Operands.{type_of, seen, IsWorded};

    /// The type below all types.
    pub const BOTTOM: Operand = Operand { word: 0, index: 0 };

    /// A value type, whose word tells no class.
    #[tactic(auto, using(crate::proofs::WordedOperands::alone_at, crate::proofs::WordedOperands::alone_worded))]
    #[inline(always)]
    pub fn alone(kind: PackedType) -> Operand
        ensures known { type_of result ≡ Known kind }
        ensures worded { (es : List Entry) → IsWorded es result }
    {
        Operand {
            word: given_alone(kind),
            index: kind.index(),
        }
    }

    /// A value type.
    #[tactic(auto, using(crate::proofs::WordedOperands::given_at, crate::proofs::WordedOperands::given_worded))]
    #[inline(always)]
    pub fn known(classes: &Classes, kind: PackedType) -> Operand
        ensures known { type_of result ≡ Known kind }
        ensures worded { IsWorded classes.now result }
        ensures given { IsGiven classes.now kind result.word }
        ensures index { result.index ≡ index_of kind }
    {
        Operand {
            word: word_of(classes, kind),
            index: kind.index(),
        }
    }

    /// A reference to the bottom heap type, with whether it may be null.
    pub fn bottom_ref(nullable: bool) -> Operand
        ensures bottom { type_of result ≡ BottomRef nullable }
        ensures worded { (es : List Entry) → IsWorded es result }
    {
        if nullable {
            Operand { word: 3, index: 0 }
        } else {
            Operand { word: 2, index: 0 }
        }
    }

    /// Whether it is just this value type, so far as that shows at once.
    #[tactic(auto, using(crate::proofs::WordedOperands::alone_at))]
    #[inline(always)]
    pub fn is(self, kind: PackedType) -> bool
        ensures { IsTrue result → type_of self ≡ Known kind }
    {
        self.word == given_alone(kind) && self.index == kind.index()
    }

    /// The type, as it is read.
    pub fn view(self) -> OperandView
        ensures { seen result ≡ type_of self }
    {
        let classes = self.word / 16;
        let mark = self.word / 2 % 8;
        let nullable = self.word % 2 == 1;
        if mark == 6 {
            return if classes == 16383 {
                OperandView::Known(PackedType::I32)
            } else {
                OperandView::Known(PackedType::I64)
            };
        }
        match classes {
            0 => without_class(mark, nullable),
            268435455 => with_all(mark, nullable, self.index),
            _ => reference(nullable, HeapType::Index(self.index)),
        }
    }
}
