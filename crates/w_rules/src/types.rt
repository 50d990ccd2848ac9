//! Validity of heap types and value types (Core, validation, types).
ghost use Rattle.std.specs.Prelude.{◌≡◌};
ghost use Rattle.w_rules.specs.Types.{has_heap, has_type};

use w_types::{HeapType, PackedType, ValType};

/// Whether the type that a heap type names is there, among so many types.
pub fn has_heap(count: usize, heap: HeapType) -> bool
    ensures { result ≡ has_heap count heap }
{
    match heap {
        HeapType::Index(index) => (index as usize) < count,
        HeapType::Func | HeapType::NoFunc | HeapType::Cont | HeapType::NoCont => true,
    }
}

/// Whether the type that a value type names is there, among so many types.
pub fn has_type(count: usize, ty: PackedType) -> bool
    ensures { result ≡ has_type count ty }
{
    match ty.whole() {
        ValType::I32 | ValType::I64 => true,
        ValType::Ref(reference) => has_heap(count, reference.heap),
    }
}
