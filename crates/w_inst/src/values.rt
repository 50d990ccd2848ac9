//! Allocation of what asks for values: globals, tables and element segments (Core, execution, instantiation).
ghost use Rattle.std.specs.Prelude.{◌≡◌, All, IfSome, IfOk, OnOk, None, [], map, length};
ghost use Rattle.w_syntax.specs.Code.{Code};
ghost use Rattle.w_syntax.specs.Items.{code_of};
ghost use Rattle.w_syntax.specs.declared.module.Elem.{Elem as TheElem};
ghost use Rattle.w_rules.specs.Sound.{Sound};
ghost use Rattle.w_reduce.specs.Values.{val};
ghost use Rattle.w_reduce.specs.Store.{Store as TheStore};
ghost use Rattle.w_reduce.specs.Program.{Program};
ghost use Rattle.w_reduce.specs.Constants.{value_of};
ghost use Rattle.w_reduce.specs.Start as start;
ghost use Rattle.w_stands.specs.Values.{vals, store_of};
ghost use Rattle.w_inst.specs.Adding.{with_globals, with_tables, with_elements};
ghost use Rattle.w_inst.specs.Constants.{IsConstant, Sees};

use crate::allocation::narrowed;
use crate::constants::constant;
use std::alloc::{AllocError, Global};
use w_syntax::{Elem, ItemView, Items, Module, Table};
use w_tables::Store;
use w_types::Value;

/// The values of the globals, each by those before it.
pub(crate) fn global_values(
    alloc: Global,
    program: &Module,
    functions: usize,
) -> Result<Vec<Value>, AllocError>
    requires sound { Sound program.now }
    ensures values { IfOk result (λ vs. (p : Program) (s : TheStore) → length s.functions ≡ functions → s.globals ≡ []
        → start.with_globals p s program.now.globals ≡ record s { globals = vals vs.items }) }
{
    let mut values = Vec::new(alloc);
    for global in program.globals.as_slice() {
        let value = constant(alloc, &global.init, values.as_slice(), functions)?;
        values.push(value)?;
    }
    Ok(values)
}

/// Adds the globals.
pub(crate) fn add_globals(store: &mut Store, values: &[Value]) -> Result<(), AllocError>
    ensures added { OnOk result (store_of store.new ≡ with_globals (store_of store.old) (map val values.now)) }
{
    for value in values {
        store.add_global(*value)?;
    }
    Ok(())
}

// What a table is filled with.
fn filling(
    alloc: Global,
    table: &Table,
    globals: &[Value],
    functions: usize,
) -> Result<Value, AllocError>
    requires constant { IfSome table.now.init IsConstant }
    ensures value { IfOk result (λ v. (p : Program) (s : TheStore) → Sees globals.now functions s → start.filling p s table.now.init ≡ val v) }
{
    match &table.init {
        Some(code) => constant(alloc, code, globals, functions),
        None => Ok(Value::Null),
    }
}

/// Adds the tables.
pub(crate) fn add_tables(
    alloc: Global,
    store: &mut Store,
    program: &Module,
    globals: &[Value],
    functions: usize,
) -> Result<(), AllocError>
    requires within { start.exceeded program.now ≡ None }
    requires sound { Sound program.now }
    ensures added { OnOk result ((p : Program) (s : TheStore) → Sees globals.now functions s
        → store_of store.new ≡ with_tables (store_of store.old) (map (start.table_of p s) program.now.tables)) }
{
    for table in program.tables.as_slice() {
        let limits = table.kind.limits;
        let value = filling(alloc, table, globals, functions)?;
        store.add_table(limits.min as u32, narrowed(limits.max), value)?;
    }
    Ok(())
}

// The value of an item of an element segment.
fn item_value(
    alloc: Global,
    item: ItemView<'_>,
    globals: &[Value],
    functions: usize,
) -> Result<Value, AllocError>
    requires constant { IsConstant (code_of item) }
    ensures value { IfOk result (λ v. (p : Program) (s : TheStore) → Sees globals.now functions s → value_of p s (code_of item.entry) ≡ val v) }
{
    match item {
        ItemView::Function(function) => {
            if function as usize >= functions {
                return Ok(Value::Null);
            }
            Ok(Value::Func(function))
        }
        ItemView::Null(_) => Ok(Value::Null),
        ItemView::Expression(body) => constant(alloc, body, globals, functions),
    }
}

// The values of an element segment.
fn item_values(
    alloc: Global,
    items: &Items,
    globals: &[Value],
    functions: usize,
) -> Result<Vec<Value>, AllocError>
    requires constant { All IsConstant items.now }
    ensures values { IfOk result (λ vs. (p : Program) (s : TheStore) → Sees globals.now functions s → map (value_of p s) items.now ≡ vals vs.items) }
{
    let mut values = Vec::new(alloc);
    for place in 0..items.len() {
        let value = item_value(alloc, items.at(place), globals, functions)?;
        values.push(value)?;
    }
    Ok(values)
}

/// Adds the element segments.
pub(crate) fn add_elements(
    alloc: Global,
    store: &mut Store,
    program: &Module,
    globals: &[Value],
    functions: usize,
) -> Result<(), AllocError>
    requires sound { Sound program.now }
    ensures added { OnOk result ((p : Program) (s : TheStore) → Sees globals.now functions s
        → store_of store.new ≡ with_elements (store_of store.old) (map (λ (e : TheElem). map (value_of p s) e.items) program.now.elements)) }
{
    for segment in program.elements.as_slice() {
        let values = item_values(alloc, &segment.items, globals, functions)?;
        store.add_elem(values)?;
    }
    Ok(())
}
