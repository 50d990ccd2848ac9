//! Value types (Core, binary format, types; the explainer, binary format).
ghost use Rattle.w_leb.specs.Format.{ReadsAt, BeginsAt};
ghost use Rattle.w_syntax.specs.Types.{index33, heaptype, reftype, valtype};

use crate::fields::Field;
use std::alloc::{AllocError, Global};
use w_leb::{read_byte, read_s33};
use w_types::{HeapType, PackedType, RefType};

// Reads the index of a type.
#[tactic(auto, unfolding(w_syntax::specs::Types::index33))]
fn read_index(bytes: &[u8], at: usize) -> Option<(u32, usize)>
    ensures { ReadsAt index33.read bytes.now at result }
{
    let Some((value, next)) = read_s33(bytes, at) else {
        return None;
    };
    if value < 0 {
        return None;
    }
    Some((value as u32, next))
}

/// The index of a type at a place, a non-negative number of 33 bits with a sign. `None` exactly where no spelling of one begins.
#[tactic(auto, using(w_leb::specs::ReadingLaws::begins_at))]
pub fn index_at(bytes: &[u8], at: usize) -> Option<(u32, usize)>
    ensures reads { ReadsAt index33.read bytes.now at result }
    ensures begins { BeginsAt index33.Spells bytes.now at result }
{
    read_index(bytes, at)
}

// Reads a heap type.
#[tactic(auto, unfolding(w_syntax::specs::Types::heaptype))]
fn read_heaptype(bytes: &[u8], at: usize) -> Option<(HeapType, usize)>
    ensures { ReadsAt heaptype.read bytes.now at result }
{
    let Some((tag, next)) = read_byte(bytes, at) else {
        return None;
    };
    match tag {
        0x70 => Some((HeapType::Func, next)),
        0x73 => Some((HeapType::NoFunc, next)),
        0x68 => Some((HeapType::Cont, next)),
        0x75 => Some((HeapType::NoCont, next)),
        _ => {
            let Some((index, next)) = index_at(bytes, at) else {
                return None;
            };
            Some((HeapType::Index(index), next))
        }
    }
}

/// The heap type at a place. `None` exactly where no spelling of one begins.
#[tactic(auto, using(w_leb::specs::ReadingLaws::begins_at))]
pub fn heaptype_at(bytes: &[u8], at: usize) -> Option<(HeapType, usize)>
    ensures reads { ReadsAt heaptype.read bytes.now at result }
    ensures begins { BeginsAt heaptype.Spells bytes.now at result }
{
    read_heaptype(bytes, at)
}

// Reads a reference type.
#[tactic(auto, unfolding(w_syntax::specs::Types::reftype))]
fn read_reftype(bytes: &[u8], at: usize) -> Option<(RefType, usize)>
    ensures { ReadsAt reftype.read bytes.now at result }
{
    let Some((tag, next)) = read_byte(bytes, at) else {
        return None;
    };
    let heap = match tag {
        0x63 => {
            let Some((heap, next)) = heaptype_at(bytes, next) else {
                return None;
            };
            let nullable = true;
            return Some((RefType { nullable, heap }, next));
        }
        0x64 => {
            let Some((heap, next)) = heaptype_at(bytes, next) else {
                return None;
            };
            let nullable = false;
            return Some((RefType { nullable, heap }, next));
        }
        0x70 => HeapType::Func,
        0x73 => HeapType::NoFunc,
        0x68 => HeapType::Cont,
        0x75 => HeapType::NoCont,
        _ => return None,
    };
    let nullable = true;
    Some((RefType { nullable, heap }, next))
}

/// The reference type at a place. `None` exactly where no spelling of one begins.
#[tactic(auto, using(w_leb::specs::ReadingLaws::begins_at))]
pub fn reftype_at(bytes: &[u8], at: usize) -> Option<(RefType, usize)>
    ensures reads { ReadsAt reftype.read bytes.now at result }
    ensures begins { BeginsAt reftype.Spells bytes.now at result }
{
    read_reftype(bytes, at)
}

// Reads a value type.
#[tactic(auto, unfolding(w_syntax::specs::Types::reftype, w_syntax::specs::Types::valtype))]
fn read_valtype(bytes: &[u8], at: usize) -> Option<(PackedType, usize)>
    ensures { ReadsAt valtype.read bytes.now at result }
{
    let Some((tag, next)) = read_byte(bytes, at) else {
        return None;
    };
    match tag {
        0x7F => Some((PackedType::I32, next)),
        0x7E => Some((PackedType::I64, next)),
        _ => {
            let Some((kind, next)) = reftype_at(bytes, at) else {
                return None;
            };
            Some((PackedType::reference(kind), next))
        }
    }
}

/// The value type at a place. `None` exactly where no spelling of one begins.
#[tactic(auto, using(w_leb::specs::ReadingLaws::begins_at))]
pub fn valtype_at(bytes: &[u8], at: usize) -> Option<(PackedType, usize)>
    ensures reads { ReadsAt valtype.read bytes.now at result }
    ensures begins { BeginsAt valtype.Spells bytes.now at result }
{
    read_valtype(bytes, at)
}

/// A value type, as a kind of field.
pub struct ValTypeField;

impl Field for ValTypeField {
    type Item = PackedType;

    ghost format = { valtype };

    fn read(
        _alloc: Global,
        bytes: &[u8],
        at: usize,
    ) -> Result<Option<(PackedType, usize)>, AllocError> {
        Ok(valtype_at(bytes, at))
    }
}

/// A reference type, as a kind of field.
pub struct RefTypeField;

impl Field for RefTypeField {
    type Item = RefType;

    ghost format = { reftype };

    fn read(
        _alloc: Global,
        bytes: &[u8],
        at: usize,
    ) -> Result<Option<(RefType, usize)>, AllocError> {
        Ok(reftype_at(bytes, at))
    }
}

/// A heap type, as a kind of field.
pub struct HeapTypeField;

impl Field for HeapTypeField {
    type Item = HeapType;

    ghost format = { heaptype };

    fn read(
        _alloc: Global,
        bytes: &[u8],
        at: usize,
    ) -> Result<Option<(HeapType, usize)>, AllocError> {
        Ok(heaptype_at(bytes, at))
    }
}
