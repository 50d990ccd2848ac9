//! Value types in 8 bytes.
ghost use Rattle.std.specs.Prelude.{◌≡◌};
ghost use Rattle.w_types.specs.declared.types.ValType.TheVariants.{Ref};

use crate::types::{HeapType, RefType, ValType};
use std::marker::Model;

/// A value type in 8 bytes: equal types are equal numbers. Contracts see the value type.
#[derive(Clone, Copy, PartialEq, Eq)]
pub struct PackedType {
    // what the type is but for its index
    kind: u32,
    // the index of a type that it names, or 0
    index: u32,
}

impl Model for PackedType {
    ghost use Rattle.w_types.specs.declared.types.ValType.{ValType as TheType};

    ghost Value = { TheType };

    ghost use Rattle.w_types.specs.PackedType.{whole, IsPackedInside, packed, packed_whole};

    ghost view = { whole };

    ghost invariant = { IsPackedInside };

    ghost inverse = { packed };

    ghost inverse_ok = { packed_whole };
}

// A reference type, packed.
fn packed_reference(reference: RefType) -> PackedType
    ensures { result ≡ Ref reference }
{
    let nullable = u32::from(reference.nullable);
    match reference.heap {
        HeapType::Func => PackedType {
            kind: 5 + nullable,
            index: 0,
        },
        HeapType::NoFunc => PackedType {
            kind: 7 + nullable,
            index: 0,
        },
        HeapType::Cont => PackedType {
            kind: 9 + nullable,
            index: 0,
        },
        HeapType::NoCont => PackedType {
            kind: 11 + nullable,
            index: 0,
        },
        HeapType::Index(index) => {
            if reference.nullable {
                PackedType { kind: 14, index }
            } else {
                PackedType { kind: 13, index }
            }
        }
    }
}

impl PackedType {
    ghost use Rattle.std.specs.Prelude.{◌≡◌};
    ghost use Rattle.w_types.specs.declared.types.ValType.TheVariants.{Ref};
    ghost use Rattle.w_types.specs.PackedTypes.{IsPacked, type_at, kind_of, index_of};

    /// `i32`.
    pub const I32: PackedType = PackedType { kind: 3, index: 0 };

    /// `i64`.
    pub const I64: PackedType = PackedType { kind: 4, index: 0 };

    /// This value type.
    pub fn new(kind: ValType) -> PackedType
        ensures { result ≡ kind }
    {
        match kind {
            ValType::I32 => PackedType::I32,
            ValType::I64 => PackedType::I64,
            ValType::Ref(reference) => packed_reference(reference),
        }
    }

    /// A reference type.
    pub fn reference(reference: RefType) -> PackedType
        ensures { result ≡ Ref reference }
    {
        packed_reference(reference)
    }

    /// The type of these two numbers.
    pub fn of_numbers(kind: u32, index: u32) -> PackedType
        requires { IsPacked kind index }
        ensures { result ≡ type_at kind index }
    {
        PackedType { kind, index }
    }

    /// The value type.
    pub fn whole(self) -> ValType
        ensures { result ≡ self }
    {
        let heap = match self.kind {
            3 => return ValType::I32,
            4 => return ValType::I64,
            5 | 6 => HeapType::Func,
            7 | 8 => HeapType::NoFunc,
            9 | 10 => HeapType::Cont,
            11 | 12 => HeapType::NoCont,
            _ => HeapType::Index(self.index),
        };
        let nullable = self.kind % 2 == 0;
        ValType::Ref(RefType { nullable, heap })
    }

    /// What it is but for its index.
    pub fn kind(self) -> u32
        ensures { result ≡ kind_of self }
    {
        self.kind
    }

    /// The index of the type that it names, or 0.
    pub fn index(self) -> u32
        ensures { result ≡ index_of self }
    {
        self.index
    }
}
