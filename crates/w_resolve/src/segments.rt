//! Element and data segments, with addresses in the place of indices (Core, execution, allocation of modules).
ghost use Rattle.std.specs.Prelude.{◌≡◌, ◌++◌, map, IfOk, OnOk};
ghost use Rattle.w_link.specs.Resolved.{at, code_resolved};
ghost use Rattle.w_link.specs.Items.{resolved_elem_mode, resolved_elem, resolved_data_mode, resolved_data};

use crate::bodies::resolve_body;
use crate::instance::ModuleInstance;
use crate::types::{resolve_heap, resolve_ref};
use lists::ListOf;
use std::alloc::{AllocError, Global};
use std::mem;
use w_syntax::{Body, Data, DataMode, Elem, ElemMode, Item, ItemForm, Items, ItemsForm};
use w_types::HeapType;

// The functions of a list of references, where they lie.
fn resolve_functions(instance: &ModuleInstance, functions: ListOf<u32>) -> ListOf<u32>
    ensures { result ≡ map (at instance.now.functions) functions }
{
    let mut items = functions.into_vec();
    for index in items.iter_mut() {
        *index = instance.function(*index);
    }
    ListOf::from_vec(items)
}

// An item that is an expression.
fn resolve_expression(
    alloc: Global,
    instance: &ModuleInstance,
    body: Body,
) -> Result<Item, AllocError>
    ensures { IfOk result (λ x. x ≡ code_resolved instance.now body) }
{
    let body = resolve_body(alloc, instance, body)?;
    Item::expression(alloc, body)
}

// An item of an element segment (Core, modules, element segments).
fn resolve_item(alloc: Global, instance: &ModuleInstance, item: Item) -> Result<Item, AllocError>
    ensures { IfOk result (λ x. x ≡ code_resolved instance.now item) }
{
    match item.into_form() {
        ItemForm::Function(function) => Ok(Item::function(instance.function(function))),
        ItemForm::Null(heap) => Ok(Item::null(resolve_heap(instance.types, heap)?)),
        ItemForm::Expression(body) => resolve_expression(alloc, instance, Box::into_inner(body)),
    }
}

// Items, where they lie (Core, modules, element segments).
fn resolve_mixed(
    alloc: Global,
    instance: &ModuleInstance,
    items: ListOf<Item>,
) -> Result<ListOf<Item>, AllocError>
    ensures { IfOk result (λ xs. xs ≡ map (code_resolved instance.now) items) }
{
    let mut items = items.into_vec();
    for item in items.iter_mut() {
        let whole = mem::replace(item, Item::null(HeapType::NoFunc));
        *item = resolve_item(alloc, instance, whole)?;
    }
    Ok(ListOf::from_vec(items))
}

// The items of an element segment: a list of references to functions stays one (Core, modules, element segments).
fn resolve_items(
    alloc: Global,
    instance: &ModuleInstance,
    items: Items,
) -> Result<Items, AllocError>
    ensures { IfOk result (λ xs. xs ≡ map (code_resolved instance.now) items) }
{
    match items.into_form() {
        ItemsForm::Functions(functions) => {
            Ok(Items::of_functions(resolve_functions(instance, functions)))
        }
        ItemsForm::Mixed(items) => Ok(Items::of_items(resolve_mixed(alloc, instance, items)?)),
    }
}

// When the items of an element segment are copied (Core, modules, element segments).
fn resolve_elem_mode(
    alloc: Global,
    instance: &ModuleInstance,
    mode: ElemMode,
) -> Result<ElemMode, AllocError>
    ensures { IfOk result (λ m. m ≡ resolved_elem_mode instance.now mode) }
{
    match mode {
        ElemMode::Active(table, place) => {
            let place = resolve_body(alloc, instance, place)?;
            Ok(ElemMode::Active(instance.table(table), place))
        }
        ElemMode::Passive => Ok(ElemMode::Passive),
        ElemMode::Declarative => Ok(ElemMode::Declarative),
    }
}

// An element segment (Core, modules, element segments).
fn resolve_elem(alloc: Global, instance: &ModuleInstance, elem: Elem) -> Result<Elem, AllocError>
    ensures { IfOk result (λ e. e ≡ resolved_elem instance.now elem) }
{
    let Elem { kind, items, mode } = elem;
    let kind = resolve_ref(instance.types, kind)?;
    let items = resolve_items(alloc, instance, items)?;
    let mode = resolve_elem_mode(alloc, instance, mode)?;
    Ok(Elem { kind, items, mode })
}

/// The element segments of a file, behind those of the files before (Core, modules, element segments). It fails only for want of memory.
pub fn append_elements(
    alloc: Global,
    instance: &ModuleInstance,
    elements: ListOf<Elem>,
    all: &mut Vec<Elem>,
) -> Result<(), AllocError>
    ensures { OnOk result (all.new.items ≡ all.old.items ++ map (resolved_elem instance.now) elements) }
{
    for elem in elements.into_vec() {
        all.push(resolve_elem(alloc, instance, elem)?)?;
    }
    Ok(())
}

// When the bytes of a data segment are copied (Core, modules, data segments).
fn resolve_data_mode(
    alloc: Global,
    instance: &ModuleInstance,
    mode: DataMode,
) -> Result<DataMode, AllocError>
    ensures { IfOk result (λ m. m ≡ resolved_data_mode instance.now mode) }
{
    match mode {
        DataMode::Active(memory, place) => {
            let place = resolve_body(alloc, instance, place)?;
            Ok(DataMode::Active(instance.memory(memory), place))
        }
        DataMode::Passive => Ok(DataMode::Passive),
    }
}

// A data segment (Core, modules, data segments).
fn resolve_data(alloc: Global, instance: &ModuleInstance, segment: Data) -> Result<Data, AllocError>
    ensures { IfOk result (λ d. d ≡ resolved_data instance.now segment) }
{
    let Data { bytes, mode } = segment;
    let mode = resolve_data_mode(alloc, instance, mode)?;
    Ok(Data { bytes, mode })
}

/// The data segments of a file, behind those of the files before (Core, modules, data segments). It fails only for want of memory.
pub fn append_datas(
    alloc: Global,
    instance: &ModuleInstance,
    datas: ListOf<Data>,
    all: &mut Vec<Data>,
) -> Result<(), AllocError>
    ensures { OnOk result (all.new.items ≡ all.old.items ++ map (resolved_data instance.now) datas) }
{
    for segment in datas.into_vec() {
        all.push(resolve_data(alloc, instance, segment)?)?;
    }
    Ok(())
}
