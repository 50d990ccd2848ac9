//! The index spaces of a module.
ghost use Rattle.std.specs.Prelude.{◌≡◌, ◌++◌, IfOk, OnOk, [], map, flat_map};
ghost use Rattle.w_syntax.specs.declared.module.Elem.{Elem};
ghost use Rattle.w_syntax.specs.declared.module.GlobalVariable.{GlobalVariable};
ghost use Rattle.w_syntax.specs.declared.module.Import.{Import};
ghost use Rattle.w_syntax.specs.declared.module.Table.{Table};
ghost use Rattle.w_rules.specs.Spaces.{as_function, as_table, as_memory, as_global, as_tag, functions_of, tables_of, memories_of, globals_of, tags_of, elements_of};

use std::alloc::{AllocError, Global};
use w_syntax::{
    Elem, ExternType, GlobalType, GlobalVariable, Import, Limits, Module, Table, TableType, Tag,
};
use w_types::RefType;

/// What instructions name by an index, of each kind: what is imported, and behind it what the module defines (Core, modules,
/// indices).
#[derive(Drop)]
pub struct Spaces {
    /// The index of each function's type.
    pub functions: Vec<u32>,
    pub tables: Vec<TableType>,
    pub memories: Vec<Limits>,
    pub globals: Vec<GlobalType>,
    pub tags: Vec<Tag>,
    /// The type of each element segment.
    pub elements: Vec<RefType>,
}

// Adds the types of these tables.
fn push_tables(tables: &mut Vec<TableType>, own: &[Table]) -> Result<(), AllocError>
    ensures { OnOk result (tables.new.items
        ≡ tables.old.items ++ map (λ (t : Table). t.kind) own.now) }
{
    for table in own {
        tables.push(table.kind)?;
    }
    Ok(())
}

// Adds the types of these globals.
fn push_globals(globals: &mut Vec<GlobalType>, own: &[GlobalVariable]) -> Result<(), AllocError>
    ensures { OnOk result (globals.new.items
        ≡ globals.old.items ++ map (λ (g : GlobalVariable). g.kind) own.now) }
{
    for global in own {
        globals.push(global.kind)?;
    }
    Ok(())
}

// Adds the types of these element segments.
fn push_elements(elements: &mut Vec<RefType>, own: &[Elem]) -> Result<(), AllocError>
    ensures { OnOk result (elements.new.items
        ≡ elements.old.items ++ map (λ (e : Elem). e.kind) own.now) }
{
    for element in own {
        elements.push(element.kind)?;
    }
    Ok(())
}

impl Spaces {
    // Adds what is imported.
    fn push(&mut self, kind: ExternType) -> Result<(), AllocError>
        ensures functions { OnOk result (self.new.functions.items
            ≡ self.old.functions.items ++ as_function kind) }
        ensures tables { OnOk result (self.new.tables.items
            ≡ self.old.tables.items ++ as_table kind) }
        ensures memories { OnOk result (self.new.memories.items
            ≡ self.old.memories.items ++ as_memory kind) }
        ensures globals { OnOk result (self.new.globals.items
            ≡ self.old.globals.items ++ as_global kind) }
        ensures tags { OnOk result (self.new.tags.items ≡ self.old.tags.items ++ as_tag kind) }
        ensures elements { OnOk result (self.new.elements.items ≡ self.old.elements.items) }
    {
        match kind {
            ExternType::Func(type_index) => self.functions.push(type_index)?,
            ExternType::Table(kind) => self.tables.push(kind)?,
            ExternType::Memory(limits) => self.memories.push(limits)?,
            ExternType::Global(kind) => self.globals.push(kind)?,
            ExternType::Tag(tag) => self.tags.push(tag)?,
        }
        Ok(())
    }

    // What is imported.
    fn of_imports(alloc: Global, imports: &[Import]) -> Result<Spaces, AllocError>
        ensures functions { IfOk result (λ s. s.functions.items
            ≡ flat_map (λ (i : Import). as_function i.kind) imports.now) }
        ensures tables { IfOk result (λ s. s.tables.items
            ≡ flat_map (λ (i : Import). as_table i.kind) imports.now) }
        ensures memories { IfOk result (λ s. s.memories.items
            ≡ flat_map (λ (i : Import). as_memory i.kind) imports.now) }
        ensures globals { IfOk result (λ s. s.globals.items
            ≡ flat_map (λ (i : Import). as_global i.kind) imports.now) }
        ensures tags { IfOk result (λ s. s.tags.items
            ≡ flat_map (λ (i : Import). as_tag i.kind) imports.now) }
        ensures elements { IfOk result (λ s. s.elements.items ≡ []) }
    {
        let mut spaces = Spaces {
            functions: Vec::new(alloc),
            tables: Vec::new(alloc),
            memories: Vec::new(alloc),
            globals: Vec::new(alloc),
            tags: Vec::new(alloc),
            elements: Vec::new(alloc),
        };
        for import in imports {
            spaces.push(import.kind)?;
        }
        Ok(spaces)
    }

    /// The index spaces of a module. It fails only when out of memory.
    pub fn of_module(alloc: Global, candidate: &Module) -> Result<Spaces, AllocError>
        ensures functions { IfOk result (λ s. s.functions.items ≡ functions_of candidate.now) }
        ensures tables { IfOk result (λ s. s.tables.items ≡ tables_of candidate.now) }
        ensures memories { IfOk result (λ s. s.memories.items ≡ memories_of candidate.now) }
        ensures globals { IfOk result (λ s. s.globals.items ≡ globals_of candidate.now) }
        ensures tags { IfOk result (λ s. s.tags.items ≡ tags_of candidate.now) }
        ensures elements { IfOk result (λ s. s.elements.items ≡ elements_of candidate.now) }
    {
        let mut spaces = Spaces::of_imports(alloc, candidate.imports.as_slice())?;
        spaces
            .functions
            .extend_from_slice(candidate.functions.as_slice())?;
        push_tables(&mut spaces.tables, candidate.tables.as_slice())?;
        spaces
            .memories
            .extend_from_slice(candidate.memories.as_slice())?;
        push_globals(&mut spaces.globals, candidate.globals.as_slice())?;
        spaces.tags.extend_from_slice(candidate.tags.as_slice())?;
        push_elements(&mut spaces.elements, candidate.elements.as_slice())?;
        Ok(spaces)
    }
}
