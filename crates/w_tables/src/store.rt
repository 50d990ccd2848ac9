//! The store, and what is read from it.
use crate::entries::FuncEntry;
use std::alloc::{AllocError, Global};
use std::marker::Model;
use w_memory::Mem;
use w_types::Value;

// A table: its elements, at most 1,048,576, and the maximum of its type.
#[derive(Drop)]
pub(crate) struct Table {
    pub(crate) elements: Vec<Value>,
    pub(crate) max: Option<u32>,
}

impl Model for Table {
    ghost use Rattle.std.specs.Prelude.{◌≤◌, length};
    ghost use Rattle.w_tables.specs.Elements.{table_limit};
    ghost use Rattle.w_tables.specs.Store as store;

    ghost Value = { store.Table };

    ghost view = { λ a. record { elements = a.elements.items; max = a.max } };

    ghost invariant = { λ a. length a.elements.items ≤ table_limit };
}

// An element segment.
#[derive(Drop)]
pub(crate) struct ElemSegment {
    pub(crate) items: Vec<Value>,
}

impl Model for ElemSegment {
    ghost use Rattle.std.specs.Prelude.{List};
    ghost use Rattle.w_types.specs.declared.value.Value.{Value as TheValue};

    ghost Value = { List TheValue };

    ghost view = { λ a. a.items.items };
}

// A data segment.
#[derive(Drop)]
pub(crate) struct DataSegment {
    pub(crate) bytes: Vec<u8>,
}

impl Model for DataSegment {
    ghost use Rattle.std.specs.Prelude.{ℕ, List};

    ghost Value = { List ℕ };

    ghost view = { λ a. a.bytes.items };
}

/// The store of a run (Core, execution, runtime structure, store): lists of functions, tables, memories, globals, tags, and element and
/// data segments. An address is a place in its list.
#[derive(Drop)]
pub struct Store {
    pub(crate) functions: Vec<FuncEntry>,
    pub(crate) tables: Vec<Table>,
    pub(crate) memories: Vec<Mem>,
    pub(crate) globals: Vec<Value>,
    pub(crate) tags: Vec<u32>,
    pub(crate) elems: Vec<ElemSegment>,
    pub(crate) datas: Vec<DataSegment>,
}

impl Model for Store {
    ghost use Rattle.w_tables.specs.Store as store;

    ghost Value = { store.Store };

    ghost view = { λ a. record { functions = a.functions.items; tables = a.tables.items; memories = a.memories.items; globals = a.globals.items; tags = a.tags.items; elems = a.elems.items; datas = a.datas.items } };
}

impl Store {
    ghost use Rattle.std.specs.Prelude.{◌≡◌, ◌<◌, length, IfOk, slice_get};
    ghost use Rattle.w_tables.specs.Operations.{empty};

    /// A store of nothing (Core, execution, runtime structure, store).
    pub fn new(alloc: Global) -> Result<Store, AllocError>
        ensures nothing { IfOk result (λ s. s ≡ empty) }
    {
        Ok(Store {
            functions: Vec::new(alloc),
            tables: Vec::new(alloc),
            memories: Vec::new(alloc),
            globals: Vec::new(alloc),
            tags: Vec::new(alloc),
            elems: Vec::new(alloc),
            datas: Vec::new(alloc),
        })
    }

    /// The function at an address (Core, execution, runtime structure, function instances).
    #[inline]
    pub fn function(&self, f: u32) -> FuncEntry
        requires function { f < length self.now.functions }
        ensures entry { slice_get self.now.functions f ≡ Some result }
    {
        self.functions[f as usize]
    }
}
