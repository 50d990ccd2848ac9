//! What bodies and expressions are checked in.
ghost use Rattle.std.specs.Prelude.{◌≡◌, nat_lt, slice_get};
ghost use Rattle.std.specs.Option.{option_copied};
ghost use Rattle.w_rules.specs.Context.{func_of, func_index_of_cont, type_of_func, type_count};
ghost use Rattle.w_rules.specs.InstructionTypes.{has_memory};
ghost use Rattle.w_rules.specs.Types.{has_heap, has_type};
ghost use Rattle.w_rules.specs.View.{context_in};

use crate::types;
use w_canon::Classes;
use w_syntax::{GlobalType, Limits, TableType, Tag};
use w_types::{CompType, FuncType, HeapType, PackedType, RecGroups, RefType};

/// What the instructions of a module name by an index (Core, validation, contexts). What is imported stands in front of what the
/// module defines, as in `Spaces`.
#[derive(Clone, Copy)]
pub struct Context<'a> {
    pub types: &'a RecGroups,
    /// The classes of the types.
    pub classes: &'a Classes,
    /// The index of each function's type.
    pub functions: &'a [u32],
    pub tables: &'a [TableType],
    pub memories: &'a [Limits],
    pub globals: &'a [GlobalType],
    pub tags: &'a [Tag],
    /// The type of each element segment.
    pub elements: &'a [RefType],
    /// How many data segments there are.
    pub datas: usize,
    /// Of each function, whether `ref.func` may name it.
    pub declared: &'a [bool],
}

impl<'a> Context<'a> {
    /// The function type of this index, where the type of this index is one.
    pub fn func_of(&self, index: u32) -> Option<&'a FuncType>
        ensures { option_copied result ≡ func_of (context_in self.now) index }
    {
        match self.types.get(index as usize) {
            Some(CompType::Func(kind)) => Some(kind),
            Some(CompType::Cont(_)) | None => None,
        }
    }

    /// The index of the function type of the continuation type of this index.
    pub fn func_index_of_cont(&self, index: u32) -> Option<u32>
        ensures { result ≡ func_index_of_cont (context_in self.now) index }
    {
        match self.types.get(index as usize) {
            Some(CompType::Cont(function)) => Some(*function),
            Some(CompType::Func(_)) | None => None,
        }
    }

    /// The type of the function of this index.
    pub fn type_of_func(&self, index: u32) -> Option<&'a FuncType>
        ensures { option_copied result ≡ type_of_func (context_in self.now) index }
    {
        match self.functions.get(index as usize) {
            Some(type_index) => self.func_of(*type_index),
            None => None,
        }
    }

    /// The index of the type of the function of this index.
    pub fn function(&self, index: u32) -> Option<u32>
        ensures { result ≡ slice_get (context_in self.now).functions index }
    {
        self.functions.get(index as usize).copied()
    }

    /// The type of the table of this index.
    pub fn table(&self, index: u32) -> Option<TableType>
        ensures { result ≡ slice_get (context_in self.now).tables index }
    {
        self.tables.get(index as usize).copied()
    }

    /// The type of the global of this index.
    pub fn global(&self, index: u32) -> Option<GlobalType>
        ensures { result ≡ slice_get (context_in self.now).globals index }
    {
        self.globals.get(index as usize).copied()
    }

    /// The type of the element segment of this index.
    pub fn element(&self, index: u32) -> Option<RefType>
        ensures { result ≡ slice_get (context_in self.now).elements index }
    {
        self.elements.get(index as usize).copied()
    }

    /// Whether there is a memory of this index.
    pub fn has_memory(&self, index: u32) -> bool
        ensures { result ≡ has_memory (context_in self.now) index }
    {
        (index as usize) < self.memories.len()
    }

    /// Whether there is a data segment of this index.
    pub fn has_data(&self, index: u32) -> bool
        ensures { result ≡ nat_lt index (context_in self.now).datas }
    {
        (index as usize) < self.datas
    }

    /// Whether the types that a heap type names are there (Core, validation, heap types).
    pub fn has_heap(&self, kind: HeapType) -> bool
        ensures { result ≡ has_heap (type_count (context_in self.now)) kind }
    {
        types::has_heap(self.types.type_count(), kind)
    }

    /// Whether the types that a value type names are there (Core, validation, value types).
    pub fn has_type(&self, kind: PackedType) -> bool
        ensures { result ≡ has_type (type_count (context_in self.now)) kind }
    {
        types::has_type(self.types.type_count(), kind)
    }
}
