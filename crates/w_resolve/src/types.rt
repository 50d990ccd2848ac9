//! Types of one file among those of all: each index of a type is counted on from the types of the files before (Core, types).
ghost use Rattle.std.specs.Prelude.{◌≡◌, ◌+◌, ◌++◌, map, IfOk, OnOk};
ghost use Rattle.w_link.specs.Shifted.{heap_shifted, ref_shifted, type_shifted, types_shifted, func_shifted, comp_shifted, sub_shifted, group_shifted};

use crate::instance::shifted;
use lists::ListOf;
use std::alloc::{AllocError, Global};
use std::mem;
use w_types::{
    CompType, FuncType, HeapType, PackedType, RecGroup, RecGroups, RefType, SubType, ValType,
};

/// A heap type (Core, types, heap types).
pub(crate) fn resolve_heap(n: u32, heap: HeapType) -> Result<HeapType, AllocError>
    ensures { IfOk result (λ h. h ≡ heap_shifted n heap) }
{
    match heap {
        HeapType::Func => Ok(HeapType::Func),
        HeapType::NoFunc => Ok(HeapType::NoFunc),
        HeapType::Cont => Ok(HeapType::Cont),
        HeapType::NoCont => Ok(HeapType::NoCont),
        HeapType::Index(index) => Ok(HeapType::Index(shifted(n, index)?)),
    }
}

/// A reference type (Core, types, reference types).
pub(crate) fn resolve_ref(n: u32, kind: RefType) -> Result<RefType, AllocError>
    ensures { IfOk result (λ r. r ≡ ref_shifted n kind) }
{
    Ok(RefType {
        nullable: kind.nullable,
        heap: resolve_heap(n, kind.heap)?,
    })
}

/// A value type (Core, types, value types).
pub(crate) fn resolve_type(n: u32, kind: PackedType) -> Result<PackedType, AllocError>
    ensures { IfOk result (λ t. t ≡ type_shifted n kind) }
{
    match kind.whole() {
        ValType::I32 => Ok(PackedType::I32),
        ValType::I64 => Ok(PackedType::I64),
        ValType::Ref(reference) => Ok(PackedType::reference(resolve_ref(n, reference)?)),
    }
}

/// Value types, where they lie (Core, types, result types).
pub(crate) fn resolve_types(
    alloc: Global,
    n: u32,
    types: &mut ListOf<PackedType>,
) -> Result<(), AllocError>
    ensures { OnOk result (types.new ≡ types_shifted n types.old) }
{
    let mut items = mem::replace(types, ListOf::new(alloc)).into_vec();
    for kind in items.iter_mut() {
        *kind = resolve_type(n, *kind)?;
    }
    *types = ListOf::from_vec(items);
    Ok(())
}

/// Indices of types, where they lie.
pub(crate) fn resolve_indices(
    alloc: Global,
    n: u32,
    indices: &mut ListOf<u32>,
) -> Result<(), AllocError>
    ensures { OnOk result (indices.new ≡ map (λ x. n + x) indices.old) }
{
    let mut items = mem::replace(indices, ListOf::new(alloc)).into_vec();
    for index in items.iter_mut() {
        *index = shifted(n, *index)?;
    }
    *indices = ListOf::from_vec(items);
    Ok(())
}

// A function type (Core, types, function types).
fn resolve_func_type(alloc: Global, n: u32, kind: &mut FuncType) -> Result<(), AllocError>
    ensures { OnOk result (kind.new ≡ func_shifted n kind.old) }
{
    resolve_types(alloc, n, &mut kind.params)?;
    resolve_types(alloc, n, &mut kind.results)
}

// A composite type (Core, types, composite types).
fn resolve_composite(alloc: Global, n: u32, kind: &mut CompType) -> Result<(), AllocError>
    ensures { OnOk result (kind.new ≡ comp_shifted n kind.old) }
{
    match kind {
        CompType::Func(kind) => resolve_func_type(alloc, n, kind)?,
        CompType::Cont(index) => *index = shifted(n, *index)?,
    }
    Ok(())
}

// A type, with the supertypes that it is declared to match (Core, types, recursive types).
fn resolve_subtype(alloc: Global, n: u32, kind: &mut SubType) -> Result<(), AllocError>
    ensures { OnOk result (kind.new ≡ sub_shifted n kind.old) }
{
    resolve_indices(alloc, n, &mut kind.supertypes)?;
    resolve_composite(alloc, n, &mut kind.composite)
}

// A group of types (Core, types, recursive types).
fn resolve_group(alloc: Global, n: u32, group: &mut RecGroup) -> Result<(), AllocError>
    ensures { OnOk result (group.new ≡ group_shifted n group.old) }
{
    let mut types = mem::replace(&mut group.types, ListOf::new(alloc)).into_vec();
    for kind in types.iter_mut() {
        resolve_subtype(alloc, n, kind)?;
    }
    group.types = ListOf::from_vec(types);
    Ok(())
}

/// The groups of a file, with indices counted on from so many types of the files before (Core, types, recursive types). It fails only
/// for want of memory.
pub fn resolve_groups(alloc: Global, n: u32, groups: RecGroups) -> Result<RecGroups, AllocError>
    ensures { IfOk result (λ gs. gs ≡ map (group_shifted n) groups) }
{
    let mut groups = groups.into_vec();
    for group in groups.iter_mut() {
        resolve_group(alloc, n, group)?;
    }
    RecGroups::from_vec(alloc, groups)
}

/// The groups of a file, behind those of the files before. It fails only for want of memory.
pub fn append_groups(
    alloc: Global,
    n: u32,
    groups: RecGroups,
    all: &mut Vec<RecGroup>,
) -> Result<(), AllocError>
    ensures { OnOk result (all.new.items ≡ all.old.items ++ map (group_shifted n) groups) }
{
    for mut group in groups.into_vec() {
        resolve_group(alloc, n, &mut group)?;
        all.push(group)?;
    }
    Ok(())
}
