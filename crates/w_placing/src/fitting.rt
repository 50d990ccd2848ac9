//! Whether what stands at an address fits an import (Core, validation, matching).
ghost use Rattle.std.specs.Prelude.{◌≡◌, ◌+◌, ◌&&◌, IfOk, List, slice_get};
ghost use Rattle.w_types.specs.declared.types.RecGroup.{RecGroup};
ghost use Rattle.w_types.specs.Groups.{types_of};
ghost use Rattle.w_syntax.specs.declared.module.GlobalType.{GlobalType as TheGlobal};
ghost use Rattle.w_syntax.specs.declared.module.TableType.{TableType as TheTable};
ghost use Rattle.w_syntax.specs.declared.module.Tag.{Tag as TheTag};
ghost use Rattle.w_canon.specs.IsClassesOf.{IsClassesOf};
ghost use Rattle.w_link.specs.Shifted.{ref_shifted, type_shifted};
ghost use Rattle.w_linked.specs.Imports as linked;
ghost use Rattle.w_linked.specs.Imports.{holds_of, kind_fits, ref_equals};
ghost use Rattle.w_placing.specs.Addresses.{stands};
ghost use Rattle.w_placing.specs.Tests.{tests_of};

use crate::address::Address;
use crate::definitions::Definitions;
use crate::types::{shifted_ref, shifted_type};
use std::alloc::AllocError;
use w_canon::Classes;
use w_resolve::shifted;
use w_syntax::{ExternType, GlobalType, Limits, Mutability, TableType};
use w_types::PackedType;

// Whether there is no greatest size where none is asked for, or one that isn't greater.
fn max_fits(wanted: Option<u64>, max: Option<u64>) -> bool
    ensures { result ≡ linked.max_fits wanted max }
{
    match (wanted, max) {
        (None, _) => true,
        (Some(most), Some(max)) => max <= most,
        (Some(_), None) => false,
    }
}

// Whether limits lie within those that are asked for (Core, validation, matching of limits).
fn limits_fit(wanted: Limits, limits: Limits) -> bool
    ensures { result ≡ linked.limits_fit wanted limits }
{
    wanted.min <= limits.min && max_fits(wanted.max, limits.max)
}

// Whether the function there is of a type that matches this one.
fn function_fits(
    definitions: &Definitions,
    classes: &Classes,
    n: u32,
    wanted: u32,
    address: u32,
) -> Result<bool, AllocError>
    ensures { IfOk result (λ b. b ≡ holds_of (slice_get definitions.now.functions address) (λ z. (tests_of classes.now).matches z (n + wanted))) }
{
    match definitions.functions.get(address as usize) {
        Some(index) => Ok(classes.matches_index(*index, shifted(n, wanted)?)),
        None => Ok(false),
    }
}

// Whether the table there is of equal elements, and of limits that fit.
fn table_fits(
    definitions: &Definitions,
    classes: &Classes,
    n: u32,
    wanted: TableType,
    address: u32,
) -> Result<bool, AllocError>
    ensures { IfOk result (λ b. b ≡ holds_of (slice_get definitions.now.tables address) (λ (u : TheTable). ref_equals (tests_of classes.now).same u.element (ref_shifted n wanted.element) && linked.limits_fit wanted.limits u.limits)) }
{
    match definitions.tables.get(address as usize) {
        Some(table) => {
            let element = PackedType::reference(shifted_ref(n, wanted.element)?);
            Ok(
                classes.equals_val(PackedType::reference(table.element), element)
                    && limits_fit(wanted.limits, table.limits),
            )
        }
        None => Ok(false),
    }
}

// Whether the memory there is of limits that fit.
fn memory_fits(definitions: &Definitions, wanted: Limits, address: u32) -> bool
    ensures { result ≡ holds_of (slice_get definitions.now.memories address) (linked.limits_fit wanted) }
{
    match definitions.memories.get(address as usize) {
        Some(limits) => limits_fit(wanted, *limits),
        None => false,
    }
}

// Whether a constant's type matches, or a variable's is equal.
fn value_fits(
    classes: &Classes,
    wanted: Mutability,
    mutability: Mutability,
    kind: PackedType,
    actual: PackedType,
) -> bool
    ensures { (gs : List RecGroup) → IsClassesOf gs classes.now → result ≡ kind_fits (tests_of classes.now) (types_of gs) wanted mutability kind actual }
{
    match (wanted, mutability) {
        (Mutability::Const, Mutability::Const) => classes.matches_val(actual, kind),
        (Mutability::Var, Mutability::Var) => classes.equals_val(actual, kind),
        _ => false,
    }
}

// Whether the global there is of the same mutability and a type that fits.
fn global_fits(
    definitions: &Definitions,
    classes: &Classes,
    n: u32,
    wanted: GlobalType,
    address: u32,
) -> Result<bool, AllocError>
    requires classes { IsClassesOf definitions.now.types classes.now }
    ensures { IfOk result (λ b. b ≡ holds_of (slice_get definitions.now.globals address) (λ (h : TheGlobal). kind_fits (tests_of classes.now) (types_of definitions.now.types) wanted.mutability h.mutability (type_shifted n wanted.kind) h.kind)) }
{
    match definitions.globals.get(address as usize) {
        Some(global) => {
            let kind = shifted_type(n, wanted.kind)?;
            Ok(value_fits(
                classes,
                wanted.mutability,
                global.mutability,
                kind,
                global.kind,
            ))
        }
        None => Ok(false),
    }
}

// Whether the tag there is of a type that is equivalent to this one.
fn tag_fits(
    definitions: &Definitions,
    classes: &Classes,
    n: u32,
    wanted: u32,
    address: u32,
) -> Result<bool, AllocError>
    ensures { IfOk result (λ b. b ≡ holds_of (slice_get definitions.now.tags address) (λ (u : TheTag). (tests_of classes.now).same u.type_index (n + wanted))) }
{
    match definitions.tags.get(address as usize) {
        Some(tag) => Ok(classes.same(tag.type_index, shifted(n, wanted)?)),
        None => Ok(false),
    }
}

/// Whether what stands at an address fits an import of this type, in a file behind n types (Core, validation, matching of external
/// types).
pub(crate) fn fits(
    definitions: &Definitions,
    classes: &Classes,
    n: u32,
    kind: ExternType,
    address: Address,
) -> Result<bool, AllocError>
    requires classes { IsClassesOf definitions.now.types classes.now }
    ensures { IfOk result (λ b. b ≡ linked.fits (tests_of classes.now) definitions.now n kind (stands address)) }
{
    match (kind, address) {
        (ExternType::Func(index), Address::Function(at)) => {
            function_fits(definitions, classes, n, index, at)
        }
        (ExternType::Table(table), Address::Table(at)) => {
            table_fits(definitions, classes, n, table, at)
        }
        (ExternType::Memory(limits), Address::Memory(at)) => {
            Ok(memory_fits(definitions, limits, at))
        }
        (ExternType::Global(global), Address::Global(at)) => {
            global_fits(definitions, classes, n, global, at)
        }
        (ExternType::Tag(tag), Address::Tag(at)) => {
            tag_fits(definitions, classes, n, tag.type_index, at)
        }
        _ => Ok(false),
    }
}
