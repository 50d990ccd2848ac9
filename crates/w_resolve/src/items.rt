//! Tables, globals, tags, exports and indices of functions' types, with addresses in the place of indices (Core, execution, allocation of
//! modules). The lists of the linked module are made file by file.
ghost use Rattle.std.specs.Prelude.{◌≡◌, ◌+◌, ◌++◌, map, option_map, IfOk, OnOk};
ghost use Rattle.w_link.specs.Resolved.{code_resolved};
ghost use Rattle.w_link.specs.Items.{tag_shifted, resolved_table, resolved_global, resolved_index, resolved_export};

use crate::bodies::resolve_body;
use crate::instance::ModuleInstance;
use crate::types::{resolve_ref, resolve_type};
use lists::ListOf;
use std::alloc::{AllocError, Global};
use w_syntax::{Body, Export, ExternIndex, GlobalType, GlobalVariable, Table, TableType, Tag};

// What the elements of a table begin with, where that is said.
fn resolve_init(
    alloc: Global,
    instance: &ModuleInstance,
    init: Option<Body>,
) -> Result<Option<Body>, AllocError>
    ensures { IfOk result (λ b. b ≡ option_map (code_resolved instance.now) init) }
{
    match init {
        Some(body) => Ok(Some(resolve_body(alloc, instance, body)?)),
        None => Ok(None),
    }
}

// A table (Core, modules, tables).
fn resolve_table(
    alloc: Global,
    instance: &ModuleInstance,
    table: Table,
) -> Result<Table, AllocError>
    ensures { IfOk result (λ t. t ≡ resolved_table instance.now table) }
{
    let Table { kind, init } = table;
    let element = resolve_ref(instance.types, kind.element)?;
    let init = resolve_init(alloc, instance, init)?;
    let limits = kind.limits;
    let kind = TableType { element, limits };
    Ok(Table { kind, init })
}

/// The tables of a file, behind those of the files before (Core, modules, tables). It fails only for want of memory.
pub fn append_tables(
    alloc: Global,
    instance: &ModuleInstance,
    tables: ListOf<Table>,
    all: &mut Vec<Table>,
) -> Result<(), AllocError>
    ensures { OnOk result (all.new.items ≡ all.old.items ++ map (resolved_table instance.now) tables) }
{
    for table in tables.into_vec() {
        all.push(resolve_table(alloc, instance, table)?)?;
    }
    Ok(())
}

// A global (Core, modules, globals).
fn resolve_global(
    alloc: Global,
    instance: &ModuleInstance,
    global: GlobalVariable,
) -> Result<GlobalVariable, AllocError>
    ensures { IfOk result (λ g. g ≡ resolved_global instance.now global) }
{
    let GlobalVariable { kind, init } = global;
    let mutability = kind.mutability;
    let kind = resolve_type(instance.types, kind.kind)?;
    let kind = GlobalType { kind, mutability };
    let init = resolve_body(alloc, instance, init)?;
    Ok(GlobalVariable { kind, init })
}

/// The globals of a file, behind those of the files before (Core, modules, globals). It fails only for want of memory.
pub fn append_globals(
    alloc: Global,
    instance: &ModuleInstance,
    globals: ListOf<GlobalVariable>,
    all: &mut Vec<GlobalVariable>,
) -> Result<(), AllocError>
    ensures { OnOk result (all.new.items ≡ all.old.items ++ map (resolved_global instance.now) globals) }
{
    for global in globals.into_vec() {
        all.push(resolve_global(alloc, instance, global)?)?;
    }
    Ok(())
}

/// The tags of a file, behind those of the files before (Core, modules, tags). It fails only for want of memory.
pub fn append_tags(
    instance: &ModuleInstance,
    tags: ListOf<Tag>,
    all: &mut Vec<Tag>,
) -> Result<(), AllocError>
    ensures { OnOk result (all.new.items ≡ all.old.items ++ map (tag_shifted instance.now.types) tags) }
{
    for tag in tags.into_vec() {
        let type_index = instance.type_index(tag.type_index)?;
        all.push(Tag { type_index })?;
    }
    Ok(())
}

/// The indices of the types of a file's functions, behind those of the files before (Core, modules, functions). It fails only for want of
/// memory.
pub fn append_function_types(
    instance: &ModuleInstance,
    functions: ListOf<u32>,
    all: &mut Vec<u32>,
) -> Result<(), AllocError>
    ensures { OnOk result (all.new.items ≡ all.old.items ++ map (λ x. instance.now.types + x) functions) }
{
    for index in functions.into_vec() {
        all.push(instance.type_index(index)?)?;
    }
    Ok(())
}

// What is exported (Core, modules, exports).
fn resolve_index(instance: &ModuleInstance, index: ExternIndex) -> ExternIndex
    ensures { result ≡ resolved_index instance.now index }
{
    match index {
        ExternIndex::Func(function) => ExternIndex::Func(instance.function(function)),
        ExternIndex::Table(table) => ExternIndex::Table(instance.table(table)),
        ExternIndex::Memory(memory) => ExternIndex::Memory(instance.memory(memory)),
        ExternIndex::Global(global) => ExternIndex::Global(instance.global(global)),
        ExternIndex::Tag(tag) => ExternIndex::Tag(instance.tag(tag)),
    }
}

// An export (Core, modules, exports).
fn resolve_export(instance: &ModuleInstance, export: Export) -> Export
    ensures { result ≡ resolved_export instance.now export }
{
    let Export { name, index } = export;
    let index = resolve_index(instance, index);
    Export { name, index }
}

/// The exports of a file, behind those of the files before (Core, modules, exports). It fails only for want of memory.
pub fn append_exports(
    instance: &ModuleInstance,
    exports: ListOf<Export>,
    all: &mut Vec<Export>,
) -> Result<(), AllocError>
    ensures { OnOk result (all.new.items ≡ all.old.items ++ map (resolved_export instance.now) exports) }
{
    for export in exports.into_vec() {
        all.push(resolve_export(instance, export))?;
    }
    Ok(())
}
