//! Active segments, one by one (Core, execution, instantiation).
ghost use Rattle.std.specs.Prelude.{◌≡◌, ◌<◌, ℕ, Some, length, IfNone, IfOk};
ghost use Rattle.w_memory.specs.Memory.{init, left_by};
ghost use Rattle.w_tables.specs.Operations as op;
ghost use Rattle.w_reduce.specs.Values.{val};
ghost use Rattle.w_reduce.specs.Constants.{number_in as number_of};
ghost use Rattle.w_reduce.specs.Program.{Program};
ghost use Rattle.w_reduce.specs.Start as start;
ghost use Rattle.w_stands.specs.Values.{store_of};
ghost use Rattle.w_inst.specs.Constants.{Sees};
ghost use Rattle.w_inst.specs.Segments.{left_by_copy, CopiesData, ElementsCopied, DataCopied, IfWent, KeepsSizes, element_length, IsElemConstant, IsDataConstant};

use crate::constants::constant;
use std::alloc::{AllocError, Global};
use w_memory::Mem;
use w_syntax::{DataMode, Elem, ElemMode};
use w_tables::Store;
use w_types::Value;

// The bytes of a page.
const PAGE: usize = 65536;

// The number of an offset.
fn number_in(value: Value) -> u32
    ensures { number_of (val value) ≡ result }
{
    match value {
        Value::I32(bits) => bits,
        _ => 0,
    }
}

// Copies all bytes into a memory. `None`, a trap, exactly where they pass its end.
fn put_bytes(memory: &mut Mem, bytes: &[u8], at: u32) -> Option<()>
    ensures copied { init memory.old bytes.now at 0 (length bytes.now) ≡ left_by result memory.new }
    ensures unchanged { IfNone result (memory.new ≡ memory.old) }
{
    if bytes.len() > memory.size() as usize * PAGE {
        return None;
    }
    memory.init(bytes, at, 0, bytes.len() as u32)
}

// Copies a data segment into a memory. `None`, a trap, exactly where it passes the end.
fn copy_data(store: &mut Store, memory: u32, segment: u32, at: u32) -> Option<()>
    requires memory { memory < length store.old.memories }
    requires segment { segment < length store.old.datas }
    ensures copies { CopiesData store.old memory segment at result store.new }
{
    let (memory, bytes) = store.memory_with(memory, Some(segment));
    put_bytes(memory, bytes, at)
}

// Copies an element segment of so many elements into a table. `None`, a trap, exactly where it passes the end.
fn copy_elements(store: &mut Store, table: u32, segment: u32, at: u32, count: usize) -> Option<()>
    requires table { table < length store.old.tables }
    requires count { element_length store.old segment ≡ Some count }
    ensures copied { op.table_init store.old table segment at 0 count ≡ (result, store.new) }
{
    if count > store.table_size(table) as usize {
        return None;
    }
    store.table_init(table, segment, at, 0, count as u32)
}

// Copies an element segment of so many elements into a table, of so many tables, and drops it. It answers whether no end was passed.
fn put_elements(
    store: &mut Store,
    table: u32,
    segment: u32,
    at: u32,
    count: usize,
    tables: usize,
) -> bool
    requires count { element_length store.old segment ≡ Some count }
    requires tables { tables ≡ length store.old.tables }
    ensures copied { ElementsCopied store.old table segment at result store.new }
    ensures keeps { IfWent result (KeepsSizes store.old store.new) }
    ensures later { IfWent result ((j : ℕ) → segment < j → element_length store.new j ≡ element_length store.old j) }
{
    if table as usize >= tables {
        return false;
    }
    let Some(()) = copy_elements(store, table, segment, at, count) else {
        return false;
    };
    store.elem_drop(segment);
    true
}

/// Starts an element segment: an active one is copied into its table and dropped, a declarative one is dropped. It answers whether
/// no end was passed.
pub(crate) fn start_element(
    alloc: Global,
    store: &mut Store,
    elem: &Elem,
    segment: u32,
    tables: usize,
    globals: &[Value],
    functions: usize,
) -> Result<bool, AllocError>
    requires constant { IsElemConstant elem.now.mode }
    requires count { element_length store.old segment ≡ Some (length elem.now.items) }
    requires tables { tables ≡ length store.old.tables }
    requires sees { Sees globals.now functions (store_of store.old) }
    ensures started { IfOk result (λ went. (p : Program) → start.element_started p (store_of store.old) segment elem.now.mode ≡ left_by_copy went store.new) }
    ensures keeps { IfOk result (λ went. IfWent went (KeepsSizes store.old store.new)) }
    ensures later { IfOk result (λ went. IfWent went ((j : ℕ) → segment < j → element_length store.new j ≡ element_length store.old j)) }
{
    match &elem.mode {
        ElemMode::Active(table, offset) => {
            let at = number_in(constant(alloc, offset, globals, functions)?);
            let count = elem.items.len();
            Ok(put_elements(store, *table, segment, at, count, tables))
        }
        ElemMode::Passive => Ok(true),
        ElemMode::Declarative => {
            store.elem_drop(segment);
            Ok(true)
        }
    }
}

// Copies a data segment into a memory, of so many memories, and drops it. It answers whether no end was passed.
fn put_data(store: &mut Store, memory: u32, segment: u32, at: u32, memories: usize) -> bool
    requires segment { segment < length store.old.datas }
    requires memories { memories ≡ length store.old.memories }
    ensures copied { DataCopied store.old memory segment at result store.new }
    ensures keeps { IfWent result (KeepsSizes store.old store.new) }
    ensures elements { IfWent result (store.new.elems ≡ store.old.elems) }
{
    if memory as usize >= memories {
        return false;
    }
    let Some(()) = copy_data(store, memory, segment, at) else {
        return false;
    };
    store.data_drop(segment);
    true
}

/// Starts a data segment: an active one is copied into its memory and dropped. It answers whether no end was passed.
pub(crate) fn start_data(
    alloc: Global,
    store: &mut Store,
    mode: &DataMode,
    segment: u32,
    memories: usize,
    globals: &[Value],
    functions: usize,
) -> Result<bool, AllocError>
    requires constant { IsDataConstant mode.now }
    requires segment { segment < length store.old.datas }
    requires memories { memories ≡ length store.old.memories }
    requires sees { Sees globals.now functions (store_of store.old) }
    ensures started { IfOk result (λ went. (p : Program) → start.data_started p (store_of store.old) segment mode.now ≡ left_by_copy went store.new) }
    ensures keeps { IfOk result (λ went. IfWent went (KeepsSizes store.old store.new)) }
    ensures elements { IfOk result (λ went. IfWent went (store.new.elems ≡ store.old.elems)) }
{
    match mode {
        DataMode::Active(memory, offset) => {
            let at = number_in(constant(alloc, offset, globals, functions)?);
            Ok(put_data(store, *memory, segment, at, memories))
        }
        DataMode::Passive => Ok(true),
    }
}
