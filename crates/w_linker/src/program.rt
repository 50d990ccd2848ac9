//! The module that several files make (Core, execution, allocation of modules).
ghost use Rattle.std.specs.Prelude.{◌≡◌, [], IfOk, OnOk, length};
ghost use Rattle.w_linked.specs.Linked as linked;
ghost use Rattle.w_placing.specs.Placing.{zipped};
ghost use Rattle.w_linker.specs.Files.{AreLinked};
ghost use Rattle.w_linker.specs.Parts.{Declares, Stores, Contains, Measures, AddsFile, ArePartsOf, module_of};

use crate::imports::append_imports;
use lists::ListOf;
use std::alloc::{AllocError, Global};
use std::mem;
use w_canon::Classes;
use w_resolve::{
    ModuleInstance, append_codes, append_datas, append_elements, append_exports,
    append_function_types, append_globals, append_groups, append_tables, append_tags,
};
use w_rules::{Checked, Runnable};
use w_syntax::{Data, Elem, Export, Func, GlobalVariable, Import, Limits, Module, Table, Tag};
use w_types::{RecGroup, RecGroups};

/// What the files so far import and export, and the types of their functions.
#[derive(Drop)]
pub(crate) struct Declarations {
    pub imports: Vec<Import>,
    pub types: Vec<RecGroup>,
    pub functions: Vec<u32>,
    pub exports: Vec<Export>,
}

/// The tables, memories, tags and globals of the files so far.
#[derive(Drop)]
pub(crate) struct Stored {
    pub tables: Vec<Table>,
    pub memories: Vec<Limits>,
    pub tags: Vec<Tag>,
    pub globals: Vec<GlobalVariable>,
}

/// The segments and the codes of the files so far, with the heights and the depths of the codes.
#[derive(Drop)]
pub(crate) struct Contents {
    pub elements: Vec<Elem>,
    pub codes: Vec<Func>,
    pub datas: Vec<Data>,
    pub heights: Vec<u64>,
    pub depths: Vec<u32>,
}

/// All parts of the files so far.
#[derive(Drop)]
pub(crate) struct Parts {
    pub declarations: Declarations,
    pub stored: Stored,
    pub contents: Contents,
}

impl Declarations {
    // Those of no files.
    fn none(alloc: Global) -> Declarations
        ensures imports { result.imports.items ≡ [] }
        ensures types { result.types.items ≡ [] }
        ensures functions { result.functions.items ≡ [] }
        ensures exports { result.exports.items ≡ [] }
    {
        Declarations {
            imports: Vec::new(alloc),
            types: Vec::new(alloc),
            functions: Vec::new(alloc),
            exports: Vec::new(alloc),
        }
    }

    // Adds those of a file.
    fn add(
        &mut self,
        alloc: Global,
        instance: &ModuleInstance,
        module: &mut Module,
    ) -> Result<(), AllocError>
        ensures added { OnOk result (Declares instance.now module.old self.old self.new) }
        ensures left { OnOk result (module.new ≡ record module.old { imports = []; types = []; functions = []; exports = [] }) }
    {
        let n = instance.types;
        let imports = mem::replace(&mut module.imports, ListOf::new(alloc));
        append_imports(n, module, imports, &mut self.imports)?;
        let types = mem::replace(&mut module.types, RecGroups::new(alloc));
        append_groups(alloc, n, types, &mut self.types)?;
        let functions = mem::replace(&mut module.functions, ListOf::new(alloc));
        append_function_types(instance, functions, &mut self.functions)?;
        let exports = mem::replace(&mut module.exports, ListOf::new(alloc));
        append_exports(instance, exports, &mut self.exports)?;
        Ok(())
    }
}

impl Stored {
    // Those of no files.
    fn none(alloc: Global) -> Stored
        ensures tables { result.tables.items ≡ [] }
        ensures memories { result.memories.items ≡ [] }
        ensures tags { result.tags.items ≡ [] }
        ensures globals { result.globals.items ≡ [] }
    {
        Stored {
            tables: Vec::new(alloc),
            memories: Vec::new(alloc),
            tags: Vec::new(alloc),
            globals: Vec::new(alloc),
        }
    }

    // Adds those of a file.
    fn add(
        &mut self,
        alloc: Global,
        instance: &ModuleInstance,
        module: &mut Module,
    ) -> Result<(), AllocError>
        ensures added { OnOk result (Stores instance.now module.old self.old self.new) }
        ensures left { OnOk result (module.new ≡ record module.old { tables = []; tags = []; globals = [] }) }
    {
        let tables = mem::replace(&mut module.tables, ListOf::new(alloc));
        append_tables(alloc, instance, tables, &mut self.tables)?;
        self.memories.extend_from_slice(module.memories.as_slice())?;
        let tags = mem::replace(&mut module.tags, ListOf::new(alloc));
        append_tags(instance, tags, &mut self.tags)?;
        let globals = mem::replace(&mut module.globals, ListOf::new(alloc));
        append_globals(alloc, instance, globals, &mut self.globals)
    }
}

impl Contents {
    // Those of no files.
    fn none(alloc: Global) -> Contents
        ensures elements { result.elements.items ≡ [] }
        ensures codes { result.codes.items ≡ [] }
        ensures datas { result.datas.items ≡ [] }
        ensures heights { result.heights.items ≡ [] }
        ensures depths { result.depths.items ≡ [] }
    {
        Contents {
            elements: Vec::new(alloc),
            codes: Vec::new(alloc),
            datas: Vec::new(alloc),
            heights: Vec::new(alloc),
            depths: Vec::new(alloc),
        }
    }

    // Adds those of a file.
    fn add(
        &mut self,
        alloc: Global,
        instance: &ModuleInstance,
        module: &mut Module,
    ) -> Result<(), AllocError>
        ensures added { OnOk result (Contains instance.now module.old self.old self.new) }
        ensures measures { OnOk result ((self.new.heights.items ≡ self.old.heights.items) × (self.new.depths.items ≡ self.old.depths.items)) }
    {
        let elements = mem::replace(&mut module.elements, ListOf::new(alloc));
        append_elements(alloc, instance, elements, &mut self.elements)?;
        let codes = mem::replace(&mut module.codes, ListOf::new(alloc));
        append_codes(alloc, instance, codes, &mut self.codes)?;
        let datas = mem::replace(&mut module.datas, ListOf::new(alloc));
        append_datas(alloc, instance, datas, &mut self.datas)
    }

    // Adds the heights and the depths of the codes of a file.
    fn add_measures(&mut self, heights: &[u64], depths: &[u32]) -> Result<(), AllocError>
        ensures { OnOk result (Measures heights.now depths.now self.old self.new) }
    {
        self.heights.extend_from_slice(heights)?;
        self.depths.extend_from_slice(depths)
    }
}

impl Parts {
    // Those of no files.
    fn none(alloc: Global) -> Parts
        ensures { ArePartsOf [] result }
    {
        Parts {
            declarations: Declarations::none(alloc),
            stored: Stored::none(alloc),
            contents: Contents::none(alloc),
        }
    }

    // Adds what a file has.
    fn add_module(
        &mut self,
        alloc: Global,
        instance: &ModuleInstance,
        module: &mut Module,
    ) -> Result<(), AllocError>
        ensures declares { OnOk result (Declares instance.now module.old self.old.declarations self.new.declarations) }
        ensures stores { OnOk result (Stores instance.now module.old self.old.stored self.new.stored) }
        ensures contains { OnOk result (Contains instance.now module.old self.old.contents self.new.contents) }
        ensures measures { OnOk result ((self.new.contents.heights.items ≡ self.old.contents.heights.items) × (self.new.contents.depths.items ≡ self.old.contents.depths.items)) }
    {
        self.declarations.add(alloc, instance, module)?;
        self.stored.add(alloc, instance, module)?;
        self.contents.add(alloc, instance, module)
    }

    // Adds a file. Its bodies are resolved where they lie.
    fn add_file(
        &mut self,
        alloc: Global,
        instance: &ModuleInstance,
        checked: Checked,
    ) -> Result<(), AllocError>
        ensures { OnOk result (AddsFile (record { source = checked; instance = instance.now }) self.old self.new) }
    {
        let (mut module, heights, depths) = checked.into_runnable().into_parts();
        self.contents
            .add_measures(heights.as_slice(), depths.as_slice())?;
        self.add_module(alloc, instance, &mut module)
    }

    // The module of all files, with the heights and the depths of its codes.
    fn into_module(
        self,
        alloc: Global,
        start: Option<u32>,
    ) -> Result<(Module, Vec<u64>, Vec<u32>), AllocError>
        ensures module { IfOk result (λ r. r.0 ≡ module_of self start) }
        ensures heights { IfOk result (λ r. r.1.items ≡ self.contents.heights.items) }
        ensures depths { IfOk result (λ r. r.2.items ≡ self.contents.depths.items) }
    {
        let Parts {
            declarations,
            stored,
            contents,
        } = self;
        let types = RecGroups::from_vec(alloc, declarations.types)?;
        let module = Module {
            types,
            imports: ListOf::from_vec(declarations.imports),
            functions: ListOf::from_vec(declarations.functions),
            tables: ListOf::from_vec(stored.tables),
            memories: ListOf::from_vec(stored.memories),
            tags: ListOf::from_vec(stored.tags),
            globals: ListOf::from_vec(stored.globals),
            exports: ListOf::from_vec(declarations.exports),
            start,
            elements: ListOf::from_vec(contents.elements),
            codes: ListOf::from_vec(contents.codes),
            datas: ListOf::from_vec(contents.datas),
        };
        Ok((module, contents.heights, contents.depths))
    }
}

// The parts of all files.
fn all_parts(
    alloc: Global,
    modules: Vec<Checked>,
    instances: &[ModuleInstance],
) -> Result<Parts, AllocError>
    requires { length instances.now ≡ length modules.items }
    ensures { IfOk result (λ parts. ArePartsOf (zipped modules.items instances.now) parts) }
{
    let mut parts = Parts::none(alloc);
    let mut file = 0;
    for checked in modules {
        parts.add_file(alloc, &instances[file], checked)?;
        file += 1;
    }
    Ok(parts)
}

/// The module that several files make, with what its runs need to know of it.
pub(crate) fn make_program(
    alloc: Global,
    modules: Vec<Checked>,
    instances: &[ModuleInstance],
    start: Option<u32>,
    classes: Classes,
) -> Result<Runnable, AllocError>
    requires linked { AreLinked classes modules.items instances.now }
    requires start { start ≡ (linked.linked (zipped modules.items instances.now)).start }
    ensures { IfOk result (λ r. r ≡ linked.linked (zipped modules.items instances.now)) }
{
    let parts = all_parts(alloc, modules, instances)?;
    let (module, heights, depths) = parts.into_module(alloc, start)?;
    Ok(Runnable::make(module, heights, depths, classes))
}
