//! Types.
ghost use Rattle.std.specs.Prelude.{◌≡◌, true, false};

use crate::packed_type::PackedType;
use lists::ListOf;
use std::alloc::Global;

/// A heap type (Core, types, heap types; the explainer adds continuations). An index is that of a type of the module.
#[derive(Clone, Copy, PartialEq, Eq)]
pub enum HeapType {
    Func,
    NoFunc,
    Cont,
    NoCont,
    Index(u32),
}

/// A reference type (Core, types, reference types).
#[derive(Clone, Copy, PartialEq, Eq)]
pub struct RefType {
    pub nullable: bool,
    pub heap: HeapType,
}

impl RefType {
    /// `funcref`, which is `(ref null func)`.
    pub const FUNCREF: RefType = RefType {
        nullable: true,
        heap: HeapType::Func,
    };

    /// `(ref func)`.
    pub const FUNC: RefType = RefType {
        nullable: false,
        heap: HeapType::Func,
    };

    /// `(ref null heap)`.
    pub fn or_null(heap: HeapType) -> RefType
        ensures { result ≡ record { nullable = true; heap = heap } }
    {
        RefType {
            nullable: true,
            heap,
        }
    }

    /// `(ref heap)`.
    pub fn non_null(heap: HeapType) -> RefType
        ensures { result ≡ record { nullable = false; heap = heap } }
    {
        RefType {
            nullable: false,
            heap,
        }
    }
}

/// A value type (Core, types, value types): integers and references.
#[derive(Clone, Copy, PartialEq, Eq)]
pub enum ValType {
    I32,
    I64,
    Ref(RefType),
}

/// A function type (Core, types, function types): from parameters to results, each in order.
#[derive(Drop)]
pub struct FuncType {
    pub params: ListOf<PackedType>,
    pub results: ListOf<PackedType>,
}

/// A composite type (Core, types, composite types). A continuation type has the index of its function type (the explainer,
/// types).
#[derive(Drop)]
pub enum CompType {
    Func(FuncType),
    Cont(u32),
}

/// A composite type with the types that it is declared to match, by their indices (Core, types, recursive types). A final one is no
/// supertype.
#[derive(Drop)]
pub struct SubType {
    pub is_final: bool,
    pub supertypes: ListOf<u32>,
    pub composite: CompType,
}

impl SubType {
    ghost use Rattle.std.specs.Prelude.{◌≡◌, true, []};

    /// A final type without supertypes, as one that stands alone is spelled.
    pub fn alone(alloc: Global, composite: CompType) -> SubType
        ensures { result ≡ record { is_final = true; supertypes = []; composite = composite } }
    {
        SubType {
            is_final: true,
            supertypes: ListOf::new(alloc),
            composite,
        }
    }
}

/// Types that are defined together, so that each may name the others (Core, types, recursive types).
#[derive(Drop)]
pub struct RecGroup {
    pub types: ListOf<SubType>,
}
