//! Types of one file among those of all: each index is counted on from the types of the files before (Core, types).
ghost use Rattle.std.specs.Prelude.{◌≡◌, IfOk};
ghost use Rattle.w_link.specs.Shifted.{heap_shifted, ref_shifted, type_shifted};

use std::alloc::AllocError;
use w_resolve::shifted;
use w_types::{HeapType, PackedType, RefType, ValType};

// A heap type (Core, types, heap types).
fn shifted_heap(n: u32, heap: HeapType) -> Result<HeapType, AllocError>
    ensures { IfOk result (λ h. h ≡ heap_shifted n heap) }
{
    match heap {
        HeapType::Func => Ok(HeapType::Func),
        HeapType::NoFunc => Ok(HeapType::NoFunc),
        HeapType::Cont => Ok(HeapType::Cont),
        HeapType::NoCont => Ok(HeapType::NoCont),
        HeapType::Index(index) => Ok(HeapType::Index(shifted(n, index)?)),
    }
}

/// A reference type (Core, types, reference types).
pub(crate) fn shifted_ref(n: u32, kind: RefType) -> Result<RefType, AllocError>
    ensures { IfOk result (λ r. r ≡ ref_shifted n kind) }
{
    Ok(RefType {
        nullable: kind.nullable,
        heap: shifted_heap(n, kind.heap)?,
    })
}

/// A value type (Core, types, value types).
pub(crate) fn shifted_type(n: u32, kind: PackedType) -> Result<PackedType, AllocError>
    ensures { IfOk result (λ t. t ≡ type_shifted n kind) }
{
    match kind.whole() {
        ValType::I32 => Ok(PackedType::I32),
        ValType::I64 => Ok(PackedType::I64),
        ValType::Ref(reference) => Ok(PackedType::reference(shifted_ref(n, reference)?)),
    }
}
