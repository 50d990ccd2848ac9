//! Continuations as types name them.
ghost use Rattle.std.specs.Prelude.{◌≡◌, ◌-◌, length, take, IfSome};
ghost use Rattle.std.specs.Option.{option_map};
ghost use Rattle.lists.specs.Rows.{row_of};
ghost use Rattle.w_rules.specs.InstructionTypes.{nullable, non_null};
ghost use Rattle.w_vswitch.specs.Rows.{index_of, last_index, index_view};

use w_types::{HeapType, PackedType, RefType, ValType};

/// A reference, which may be null, to the type of this index.
pub(crate) fn nullable(index: u32) -> ValType
    ensures { result ≡ nullable index }
{
    ValType::Ref(RefType::or_null(HeapType::Index(index)))
}

/// A reference, which is not null, to the type of this index.
pub(crate) fn non_null(index: u32) -> PackedType
    ensures { result ≡ non_null index }
{
    PackedType::reference(RefType::non_null(HeapType::Index(index)))
}

// These types, and the index in the heap type of what stands behind them.
fn indexed(beneath: &[PackedType], heap: HeapType) -> Option<(&[PackedType], u32)>
    ensures index { index_of (row_of beneath.now) heap ≡ option_map index_view result }
    ensures beneath { IfSome result (λ p. p.0.now ≡ beneath.now) }
{
    match heap {
        HeapType::Index(index) => Some((beneath, index)),
        HeapType::Func | HeapType::NoFunc | HeapType::Cont | HeapType::NoCont => None,
    }
}

/// What types have before a reference to a type by its index, and the index, where they end in one.
pub(crate) fn last_index(types: &[PackedType]) -> Option<(&[PackedType], u32)>
    ensures index { last_index (row_of types.now) ≡ option_map index_view result }
    ensures beneath { IfSome result (λ p. p.0.now ≡ take (length types.now - 1) types.now) }
{
    let (top, beneath) = types.split_last()?;
    match top.whole() {
        ValType::Ref(reference) => indexed(beneath, reference.heap),
        ValType::I32 | ValType::I64 => None,
    }
}
