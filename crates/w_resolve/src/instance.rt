//! Instances of modules.
ghost use Rattle.std.specs.Prelude.{◌≡◌, ◌+◌, IfOk};
ghost use Rattle.w_link.specs.Resolved.{at};

use std::alloc::AllocError;
use std::marker::Model;

/// An instance of a module: for each index space the addresses that the indices of its file stand for (Core, execution, module
/// instances). Types, element and data segments are not imported: their indices are counted on from those of the files before.
/// Contracts see the record of the definitions.
#[derive(Drop)]
pub struct ModuleInstance {
    /// How many types the files before have.
    pub types: u32,
    pub functions: Vec<u32>,
    pub tables: Vec<u32>,
    pub memories: Vec<u32>,
    pub globals: Vec<u32>,
    pub tags: Vec<u32>,
    /// How many element segments the files before have.
    pub elements: u32,
    /// How many data segments the files before have.
    pub datas: u32,
}

impl Model for ModuleInstance {
    ghost use Rattle.w_link.specs.Resolved.{Instance};

    ghost Value = { Instance };

    ghost view = { λ a. record {
      types = a.types;
      functions = a.functions.items;
      tables = a.tables.items;
      memories = a.memories.items;
      globals = a.globals.items;
      tags = a.tags.items;
      elements = a.elements;
      datas = a.datas;
    } };
}

/// The address that an index stands for; an index that isn't there stays (Core, execution, module instances).
pub fn at(addresses: &[u32], index: u32) -> u32
    ensures { result ≡ at addresses.now index }
{
    match addresses.get(index as usize) {
        Some(address) => *address,
        None => index,
    }
}

/// An index counted on from those of the files before. One of 2^32 or more is answered as want of memory: callers take no files that have
/// so many.
pub fn shifted(before: u32, index: u32) -> Result<u32, AllocError>
    ensures { IfOk result (λ y. y ≡ before + index) }
{
    before.checked_add(index).ok_or(AllocError)
}

impl ModuleInstance {
    ghost use Rattle.std.specs.Prelude.{◌≡◌, ◌+◌, IfOk};
    ghost use Rattle.w_link.specs.Resolved.{at};

    /// The address of a function.
    pub fn function(&self, index: u32) -> u32
        ensures { result ≡ at self.now.functions index }
    {
        at(self.functions.as_slice(), index)
    }

    /// The address of a table.
    pub fn table(&self, index: u32) -> u32
        ensures { result ≡ at self.now.tables index }
    {
        at(self.tables.as_slice(), index)
    }

    /// The address of a memory.
    pub fn memory(&self, index: u32) -> u32
        ensures { result ≡ at self.now.memories index }
    {
        at(self.memories.as_slice(), index)
    }

    /// The address of a global.
    pub fn global(&self, index: u32) -> u32
        ensures { result ≡ at self.now.globals index }
    {
        at(self.globals.as_slice(), index)
    }

    /// The address of a tag.
    pub fn tag(&self, index: u32) -> u32
        ensures { result ≡ at self.now.tags index }
    {
        at(self.tags.as_slice(), index)
    }

    /// The index of a type among those of all files.
    pub fn type_index(&self, index: u32) -> Result<u32, AllocError>
        ensures { IfOk result (λ y. y ≡ self.now.types + index) }
    {
        shifted(self.types, index)
    }

    /// The address of an element segment.
    pub fn element(&self, index: u32) -> Result<u32, AllocError>
        ensures { IfOk result (λ y. y ≡ self.now.elements + index) }
    {
        shifted(self.elements, index)
    }

    /// The address of a data segment.
    pub fn data(&self, index: u32) -> Result<u32, AllocError>
        ensures { IfOk result (λ y. y ≡ self.now.datas + index) }
    {
        shifted(self.datas, index)
    }
}
