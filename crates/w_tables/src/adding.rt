//! Adding to a store.
ghost use Rattle.std.specs.Prelude.{◌≡◌, ◌≤◌, ◌++◌, ◌∷◌, [], vec_len, IfOk, OnErr};
ghost use Rattle.w_tables.specs.Elements.{table_limit};
ghost use Rattle.w_tables.specs.Operations as op;

use crate::entries::FuncEntry;
use crate::store::{DataSegment, ElemSegment, Store, Table};
use std::alloc::AllocError;
use w_memory::Mem;
use w_types::Value;

// Puts an item at the end, and answers its place. It fails for want of memory, or of 32 bits for the place.
fn append<T: Drop>(items: &mut Vec<T>, item: T) -> Result<u32, AllocError>
    ensures place { IfOk result (λ at. at ≡ vec_len items.old) }
    ensures items { IfOk result (λ _. items.new.items ≡ items.old.items ++ item ∷ []) }
    ensures err { OnErr result (items.new.items ≡ items.old.items) }
{
    let Ok(at) = u32::try_from(items.len()) else {
        return Err(AllocError);
    };
    items.push(item)?;
    Ok(at)
}

impl Store {
    /// Adds a function and answers its address (Core, execution, allocation of functions). It fails for want of memory, or of 32 bits for
    /// the address, and then nothing changed.
    #[tactic(auto, unfolding(crate::specs::Operations::add_function))]
    pub fn add_function(&mut self, f: FuncEntry) -> Result<u32, AllocError>
        ensures added { IfOk result (λ at. op.add_function self.old f ≡ (at, self.new)) }
        ensures err { OnErr result (self.new ≡ self.old) }
    {
        append(&mut self.functions, f)
    }

    /// Adds a table of `min` elements, each `v`, with this maximum of elements, and answers its address (Core, execution, allocation of
    /// tables). It fails for want of memory, or of 32 bits for the address, and then nothing changed.
    #[tactic(auto, unfolding(crate::specs::Operations::add_table))]
    pub fn add_table(&mut self, min: u32, max: Option<u32>, v: Value) -> Result<u32, AllocError>
        requires size { min ≤ table_limit }
        ensures added { IfOk result (λ at. op.add_table self.old min max v ≡ (at, self.new)) }
        ensures err { OnErr result (self.new ≡ self.old) }
    {
        let mut elements = Vec::new(*self.tables.allocator());
        elements.resize(min as usize, v)?;
        append(&mut self.tables, Table { elements, max })
    }

    /// Adds a memory and answers its address (Core, execution, allocation of memories). It fails for want of memory, or of 32 bits for the
    /// address, and then nothing changed.
    #[tactic(auto, unfolding(crate::specs::Operations::add_memory))]
    pub fn add_memory(&mut self, m: Mem) -> Result<u32, AllocError>
        ensures added { IfOk result (λ at. op.add_memory self.old m ≡ (at, self.new)) }
        ensures err { OnErr result (self.new ≡ self.old) }
    {
        append(&mut self.memories, m)
    }

    /// Adds a global and answers its address (Core, execution, allocation of globals). It fails for want of memory, or of 32 bits for the
    /// address, and then nothing changed.
    #[tactic(auto, unfolding(crate::specs::Operations::add_global))]
    pub fn add_global(&mut self, v: Value) -> Result<u32, AllocError>
        ensures added { IfOk result (λ at. op.add_global self.old v ≡ (at, self.new)) }
        ensures err { OnErr result (self.new ≡ self.old) }
    {
        append(&mut self.globals, v)
    }

    /// Adds a tag of the type at this index and answers its address (Core, execution, allocation of tags). It fails for want of memory, or
    /// of 32 bits for the address, and then nothing changed.
    #[tactic(auto, unfolding(crate::specs::Operations::add_tag))]
    pub fn add_tag(&mut self, type_index: u32) -> Result<u32, AllocError>
        ensures added { IfOk result (λ at. op.add_tag self.old type_index ≡ (at, self.new)) }
        ensures err { OnErr result (self.new ≡ self.old) }
    {
        append(&mut self.tags, type_index)
    }

    /// Adds an element segment of these values and answers its address (Core, execution, allocation of element segments). It fails for
    /// want of memory, or of 32 bits for the address, and then nothing changed.
    #[tactic(auto, unfolding(crate::specs::Operations::add_elem))]
    pub fn add_elem(&mut self, items: Vec<Value>) -> Result<u32, AllocError>
        ensures added { IfOk result (λ at. op.add_elem self.old items.items ≡ (at, self.new)) }
        ensures err { OnErr result (self.new ≡ self.old) }
    {
        append(&mut self.elems, ElemSegment { items })
    }

    /// Adds a data segment of these bytes and answers its address (Core, execution, allocation of data segments). It fails for want of
    /// memory, or of 32 bits for the address, and then nothing changed.
    #[tactic(auto, unfolding(crate::specs::Operations::add_bytes))]
    pub fn add_bytes(&mut self, bytes: Vec<u8>) -> Result<u32, AllocError>
        ensures added { IfOk result (λ at. op.add_bytes self.old bytes.items ≡ (at, self.new)) }
        ensures err { OnErr result (self.new ≡ self.old) }
    {
        append(&mut self.datas, DataSegment { bytes })
    }
}
