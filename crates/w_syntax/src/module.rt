//! Modules (Core, modules).

use crate::body::Body;
use crate::items::Items;
use crate::locals::Locals;
use crate::name::Name;
use lists::ListOf;
use std::alloc::Global;
use w_types::{PackedType, RecGroups, RefType};

/// The least and the greatest size of a table or a memory (Core, types, limits).
#[derive(Clone, Copy)]
pub struct Limits {
    pub min: u64,
    pub max: Option<u64>,
}

/// The type of a table (Core, types, table types).
#[derive(Clone, Copy)]
pub struct TableType {
    pub element: RefType,
    pub limits: Limits,
}

/// Whether a global may be written.
#[derive(Clone, Copy, PartialEq, Eq)]
pub enum Mutability {
    Const,
    Var,
}

/// The type of a global (Core, types, global types).
#[derive(Clone, Copy)]
pub struct GlobalType {
    pub kind: PackedType,
    pub mutability: Mutability,
}

/// A tag, by the index of its type (Core, modules, tags).
#[derive(Clone, Copy)]
pub struct Tag {
    pub type_index: u32,
}

/// The type of what is imported (Core, types, external types): a function has the index of its type.
#[derive(Clone, Copy)]
pub enum ExternType {
    Func(u32),
    Table(TableType),
    Memory(Limits),
    Global(GlobalType),
    Tag(Tag),
}

/// An import (Core, modules, imports).
#[derive(Drop)]
pub struct Import {
    pub module_name: Name,
    pub item_name: Name,
    pub kind: ExternType,
}

/// A table, and what its elements begin with, where that is not null (Core, modules, tables).
#[derive(Drop)]
pub struct Table {
    pub kind: TableType,
    pub init: Option<Body>,
}

/// A global, and what it begins with (Core, modules, globals).
#[derive(Drop)]
pub struct GlobalVariable {
    pub kind: GlobalType,
    pub init: Body,
}

/// What is exported, by its index (Core, modules, exports).
#[derive(Clone, Copy)]
pub enum ExternIndex {
    Func(u32),
    Table(u32),
    Memory(u32),
    Global(u32),
    Tag(u32),
}

/// An export (Core, modules, exports).
#[derive(Drop)]
pub struct Export {
    pub name: Name,
    pub index: ExternIndex,
}

/// When the items of an element segment are copied: at instantiation, into this table at this place; when an instruction says
/// so; or never, as they only declare functions (Core, modules, element segments).
#[derive(Drop)]
pub enum ElemMode {
    Active(u32, Body),
    Passive,
    Declarative,
}

/// An element segment: references of one type (Core, modules, element segments).
#[derive(Drop)]
pub struct Elem {
    pub kind: RefType,
    pub items: Items,
    pub mode: ElemMode,
}

/// When the bytes of a data segment are copied: at instantiation, into this memory at this place, or when an instruction says so
/// (Core, modules, data segments).
#[derive(Drop)]
pub enum DataMode {
    Active(u32, Body),
    Passive,
}

/// A data segment (Core, modules, data segments).
#[derive(Drop)]
pub struct Data {
    pub bytes: ListOf<u8>,
    pub mode: DataMode,
}

/// A function's code: its locals behind the parameters, and its body.
#[derive(Drop)]
pub struct Func {
    pub locals: Locals,
    pub body: Body,
}

/// A module. An absent section is an empty list.
#[derive(Drop)]
pub struct Module {
    pub types: RecGroups,
    pub imports: ListOf<Import>,
    /// The type of each function that is not imported.
    pub functions: ListOf<u32>,
    pub tables: ListOf<Table>,
    pub memories: ListOf<Limits>,
    /// The tags that are not imported.
    pub tags: ListOf<Tag>,
    pub globals: ListOf<GlobalVariable>,
    pub exports: ListOf<Export>,
    /// The function that runs first, if there is one.
    pub start: Option<u32>,
    pub elements: ListOf<Elem>,
    /// The code of each function that is not imported.
    pub codes: ListOf<Func>,
    pub datas: ListOf<Data>,
}

impl Module {
    ghost use Rattle.std.specs.Prelude.{◌≡◌};
    ghost use Rattle.w_syntax.specs.Module.{empty_module};

    /// The module of no sections.
    pub fn empty(alloc: Global) -> Module
        ensures { result ≡ empty_module }
    {
        Module {
            types: RecGroups::new(alloc),
            imports: ListOf::new(alloc),
            functions: ListOf::new(alloc),
            tables: ListOf::new(alloc),
            memories: ListOf::new(alloc),
            tags: ListOf::new(alloc),
            globals: ListOf::new(alloc),
            exports: ListOf::new(alloc),
            start: None,
            elements: ListOf::new(alloc),
            codes: ListOf::new(alloc),
            datas: ListOf::new(alloc),
        }
    }
}

/// What one section of a module says (Core, binary format, sections).
#[derive(Drop)]
pub enum Section {
    Custom,
    Types(RecGroups),
    Imports(ListOf<Import>),
    Functions(ListOf<u32>),
    Tables(ListOf<Table>),
    Memories(ListOf<Limits>),
    Tags(ListOf<Tag>),
    Globals(ListOf<GlobalVariable>),
    Exports(ListOf<Export>),
    Start(u32),
    Elements(ListOf<Elem>),
    DataCount(u32),
    Codes(ListOf<Func>),
    Datas(ListOf<Data>),
}
