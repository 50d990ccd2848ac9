//! The lines of the items of a module.
ghost use Rattle.std.specs.Prelude.{◌≡◌, ◌++◌, OnOk, map};
ghost use Rattle.std.specs.List.{flat_map};
ghost use Rattle.w_lines.specs.Written.{code_bytes};
ghost use Rattle.w_text.specs.declared.item.Item.TheVariants.{Group, Imported, TableItem, Memory, TagItem, Global, Exported, Elements, Bytes, Function};
ghost use Rattle.w_text.specs.Written.{type_bytes, local_bytes, elements_head, item_bytes};

use std::alloc::AllocError;
use w_lines::Mode;
use w_put_lines::{
    put_data_line, put_elements_line, put_export_line, put_expr, put_function_line,
    put_global_line, put_group_line, put_import_line, put_item, put_local_line, put_memory_line,
    put_table_line, put_tag_line, put_type_line,
};
use w_syntax::{
    Data, DataMode, Elem, ElemMode, Export, Func, GlobalVariable, Import, Items, Limits, LocalRun,
    Table, Tag,
};
use w_types::{RecGroup, RefType, SubType};

/// What is an item of a module.
pub(crate) trait PutItem {
    ghost use Rattle.std.specs.Prelude.{◌≡◌, ◌++◌, OnOk};
    ghost use Rattle.w_text.specs.declared.item.Item.{Item};
    ghost use Rattle.w_text.specs.Written.{item_bytes};

    /// The item that it is.
    ghost item: { Self → Item };

    /// Writes its lines. It fails only for want of memory.
    fn put(&self, out: &mut Vec<u8>) -> Result<(), AllocError>
        ensures { OnOk result (out.new.items ≡ out.old.items ++ item_bytes (item self.now)) };
}

/// Writes the lines of items of one kind.
pub(crate) fn put_items<T: PutItem>(items: &[T], out: &mut Vec<u8>) -> Result<(), AllocError>
    ensures { OnOk result (out.new.items ≡ out.old.items ++ flat_map item_bytes (map T.item items.now)) }
{
    for item in items {
        item.put(out)?;
    }
    Ok(())
}

// Writes the lines of types.
fn put_types(types: &[SubType], out: &mut Vec<u8>) -> Result<(), AllocError>
    ensures { OnOk result (out.new.items ≡ out.old.items ++ flat_map type_bytes types.now) }
{
    for kind in types {
        put_type_line(kind, out)?;
    }
    Ok(())
}

impl PutItem for RecGroup {
    ghost item = { Group };

    fn put(&self, out: &mut Vec<u8>) -> Result<(), AllocError> {
        match self.types.as_slice() {
            [] => put_group_line(0, out),
            [kind] => put_type_line(kind, out),
            types => {
                put_group_line(types.len(), out)?;
                put_types(types, out)
            }
        }
    }
}

impl PutItem for Import {
    ghost item = { Imported };

    fn put(&self, out: &mut Vec<u8>) -> Result<(), AllocError> {
        put_import_line(self, out)
    }
}

impl PutItem for Table {
    ghost item = { TableItem };

    fn put(&self, out: &mut Vec<u8>) -> Result<(), AllocError> {
        match &self.init {
            None => put_table_line(self.kind, false, out),
            Some(body) => {
                put_table_line(self.kind, true, out)?;
                put_expr(body, out)
            }
        }
    }
}

impl PutItem for Limits {
    ghost item = { Memory };

    fn put(&self, out: &mut Vec<u8>) -> Result<(), AllocError> {
        put_memory_line(*self, out)
    }
}

impl PutItem for Tag {
    ghost item = { TagItem };

    fn put(&self, out: &mut Vec<u8>) -> Result<(), AllocError> {
        put_tag_line(*self, out)
    }
}

impl PutItem for GlobalVariable {
    ghost item = { Global };

    fn put(&self, out: &mut Vec<u8>) -> Result<(), AllocError> {
        put_global_line(self.kind, out)?;
        put_expr(&self.init, out)
    }
}

impl PutItem for Export {
    ghost item = { Exported };

    fn put(&self, out: &mut Vec<u8>) -> Result<(), AllocError> {
        put_export_line(self, out)
    }
}

// Writes the lines of the items of an element segment.
fn put_segment_items(items: &Items, out: &mut Vec<u8>) -> Result<(), AllocError>
    ensures { OnOk result (out.new.items ≡ out.old.items ++ flat_map code_bytes items.now) }
{
    for place in 0..items.len() {
        put_item(items.at(place), out)?;
    }
    Ok(())
}

// Writes what stands in front of the items of an element segment.
fn put_elements_head(
    mode: &ElemMode,
    kind: RefType,
    count: usize,
    out: &mut Vec<u8>,
) -> Result<(), AllocError>
    ensures { OnOk result (out.new.items ≡ out.old.items ++ elements_head mode.now kind count) }
{
    match mode {
        ElemMode::Active(table, place) => {
            put_elements_line(Mode::Active(*table), kind, count, out)?;
            put_expr(place, out)
        }
        ElemMode::Passive => put_elements_line(Mode::Passive, kind, count, out),
        ElemMode::Declarative => put_elements_line(Mode::Declarative, kind, count, out),
    }
}

impl PutItem for Elem {
    ghost item = { Elements };

    fn put(&self, out: &mut Vec<u8>) -> Result<(), AllocError> {
        put_elements_head(&self.mode, self.kind, self.items.len(), out)?;
        put_segment_items(&self.items, out)
    }
}

impl PutItem for Data {
    ghost item = { Bytes };

    fn put(&self, out: &mut Vec<u8>) -> Result<(), AllocError> {
        match &self.mode {
            DataMode::Active(memory, place) => {
                put_data_line(Some(*memory), self.bytes.as_slice(), out)?;
                put_expr(place, out)
            }
            DataMode::Passive => put_data_line(None, self.bytes.as_slice(), out),
        }
    }
}

// Writes the lines of locals.
fn put_locals(runs: &[LocalRun], out: &mut Vec<u8>) -> Result<(), AllocError>
    ensures { OnOk result (out.new.items ≡ out.old.items ++ flat_map local_bytes runs.now) }
{
    for run in runs {
        put_local_line(*run, out)?;
    }
    Ok(())
}

/// Writes the lines of a function, by the index of its type.
pub(crate) fn put_function(kind: u32, function: &Func, out: &mut Vec<u8>) -> Result<(), AllocError>
    ensures { OnOk result (out.new.items ≡ out.old.items ++ item_bytes (Function kind function.now)) }
{
    put_function_line(kind, out)?;
    put_locals(function.locals.as_slice(), out)?;
    put_expr(&function.body, out)
}
