//! What the files define, each thing at its address (Core, execution, allocation of modules).
ghost use Rattle.std.specs.Prelude.{◌≡◌, ◌+◌, ◌++◌, [], ℕ, map, IfOk, OnOk, option_to_list};
ghost use Rattle.w_syntax.specs.declared.module.Table.{Table as TheTable};
ghost use Rattle.w_syntax.specs.declared.module.GlobalVariable.{GlobalVariable as TheGlobal};
ghost use Rattle.w_reduce.specs.Imports.{printer_of};
ghost use Rattle.w_link.specs.Items.{table_type_shifted, global_type_shifted, tag_shifted};
ghost use Rattle.w_linked.specs.Definitions as linked;
ghost use Rattle.w_placing.specs.Parts.{AddsFile, parts_of};

use crate::counting::counted;
use crate::types::{shifted_ref, shifted_type};
use std::alloc::{AllocError, Global};
use std::marker::Model;
use w_inst::printer_of;
use w_resolve::{append_groups, shifted};
use w_rules::Checked;
use w_syntax::{
    ExternType, GlobalType, GlobalVariable, Import, Limits, Module, Table, TableType, Tag,
};
use w_types::{RecGroup, RecGroups};

/// What the files define: types, the index of each function's type with those of the host in front, and the types of tables, memories,
/// globals and tags, file by file (Core, execution, store). Contracts see the record of the definitions.
#[derive(Drop)]
pub struct Definitions {
    pub types: RecGroups,
    pub functions: Vec<u32>,
    pub tables: Vec<TableType>,
    pub memories: Vec<Limits>,
    pub globals: Vec<GlobalType>,
    pub tags: Vec<Tag>,
}

impl Model for Definitions {
    ghost use Rattle.w_linked.specs.Definitions as linked;

    ghost Value = { linked.Definitions };

    ghost view = { λ a. record {
      types = a.types;
      functions = a.functions.items;
      tables = a.tables.items;
      memories = a.memories.items;
      globals = a.globals.items;
      tags = a.tags.items;
    } };
}

/// What the files so far define; the functions of the host stand apart from the files' own.
#[derive(Drop)]
pub(crate) struct Parts {
    pub types: Vec<RecGroup>,
    pub hosts: Vec<u32>,
    pub functions: Vec<u32>,
    pub tables: Vec<TableType>,
    pub memories: Vec<Limits>,
    pub globals: Vec<GlobalType>,
    pub tags: Vec<Tag>,
}

// The index of the type of an import that is a function of the host.
fn host_type(n: u32, module: &Module, import: &Import) -> Result<Option<u32>, AllocError>
    ensures { IfOk result (λ o. option_to_list o ≡ linked.host_type n import.now.kind (printer_of module.now import.now)) }
{
    match (import.kind, printer_of(module, import)) {
        (ExternType::Func(index), Some(_)) => Ok(Some(shifted(n, index)?)),
        _ => Ok(None),
    }
}

// Adds those of all imports of a file.
fn append_hosts(n: u32, module: &Module, all: &mut Vec<u32>) -> Result<(), AllocError>
    ensures { OnOk result (all.new.items ≡ all.old.items ++ linked.host_types n module.now module.now.imports) }
{
    for import in module.imports.as_slice() {
        if let Some(index) = host_type(n, module, import)? {
            all.push(index)?;
        }
    }
    Ok(())
}

// Adds the indices of the types of a file's own functions (Core, modules, functions).
fn append_functions(n: u32, functions: &[u32], all: &mut Vec<u32>) -> Result<(), AllocError>
    ensures { OnOk result (all.new.items ≡ all.old.items ++ map (λ (x : ℕ). n + x) functions.now) }
{
    for index in functions {
        all.push(shifted(n, *index)?)?;
    }
    Ok(())
}

// Adds the types of a file's tables (Core, types, table types).
fn append_tables(n: u32, tables: &[Table], all: &mut Vec<TableType>) -> Result<(), AllocError>
    ensures { OnOk result (all.new.items ≡ all.old.items ++ map (λ (t : TheTable). table_type_shifted n t.kind) tables.now) }
{
    for table in tables {
        let element = shifted_ref(n, table.kind.element)?;
        let limits = table.kind.limits;
        all.push(TableType { element, limits })?;
    }
    Ok(())
}

// Adds the types of a file's globals (Core, types, global types).
fn append_globals(
    n: u32,
    globals: &[GlobalVariable],
    all: &mut Vec<GlobalType>,
) -> Result<(), AllocError>
    ensures { OnOk result (all.new.items ≡ all.old.items ++ map (λ (g : TheGlobal). global_type_shifted n g.kind) globals.now) }
{
    for global in globals {
        let kind = shifted_type(n, global.kind.kind)?;
        let mutability = global.kind.mutability;
        all.push(GlobalType { kind, mutability })?;
    }
    Ok(())
}

// Adds a file's tags (Core, types, tag types).
fn append_tags(n: u32, tags: &[Tag], all: &mut Vec<Tag>) -> Result<(), AllocError>
    ensures { OnOk result (all.new.items ≡ all.old.items ++ map (tag_shifted n) tags.now) }
{
    for tag in tags {
        let type_index = shifted(n, tag.type_index)?;
        all.push(Tag { type_index })?;
    }
    Ok(())
}

impl Parts {
    // What no files define.
    fn none(alloc: Global) -> Parts
        ensures { parts_of result ≡ record { types = []; hosts = []; functions = []; tables = []; memories = []; globals = []; tags = [] } }
    {
        Parts {
            types: Vec::new(alloc),
            hosts: Vec::new(alloc),
            functions: Vec::new(alloc),
            tables: Vec::new(alloc),
            memories: Vec::new(alloc),
            globals: Vec::new(alloc),
            tags: Vec::new(alloc),
        }
    }

    // Adds what a file defines, behind so many types.
    fn add_file(&mut self, alloc: Global, n: u32, module: &Module) -> Result<(), AllocError>
        ensures { OnOk result (AddsFile n module.now (parts_of self.old) (parts_of self.new)) }
    {
        append_groups(alloc, n, module.types.copy(alloc)?, &mut self.types)?;
        append_hosts(n, module, &mut self.hosts)?;
        append_functions(n, module.functions.as_slice(), &mut self.functions)?;
        append_tables(n, module.tables.as_slice(), &mut self.tables)?;
        self.memories.extend_from_slice(module.memories.as_slice())?;
        append_globals(n, module.globals.as_slice(), &mut self.globals)?;
        append_tags(n, module.tags.as_slice(), &mut self.tags)?;
        Ok(())
    }

    // All definitions.
    fn into_definitions(self, alloc: Global) -> Result<Definitions, AllocError>
        ensures { IfOk result (λ d. d ≡ (let p = parts_of self in record { types = p.types; functions = p.hosts ++ p.functions; tables = p.tables; memories = p.memories; globals = p.globals; tags = p.tags })) }
    {
        let Parts {
            types,
            hosts,
            functions: own,
            tables,
            memories,
            globals,
            tags,
        } = self;
        let mut functions = hosts;
        functions.extend_from_slice(own.as_slice())?;
        let types = RecGroups::from_vec(alloc, types)?;
        Ok(Definitions {
            types,
            functions,
            tables,
            memories,
            globals,
            tags,
        })
    }
}

/// What the files define, each thing at its address. It fails only for want of memory.
pub fn define(alloc: Global, modules: &[Checked]) -> Result<Definitions, AllocError>
    ensures { IfOk result (λ d. d ≡ linked.definitions modules.now) }
{
    let mut parts = Parts::none(alloc);
    let mut n = 0;
    for checked in modules {
        let module = checked.module();
        parts.add_file(alloc, n, module)?;
        n = counted(n, module.types.type_count())?;
    }
    parts.into_definitions(alloc)
}
