//! Element and data segments.
ghost use Rattle.std.specs.Prelude.{◌≡◌, ◌++◌, OnOk, Option, Some, None};
ghost use Rattle.w_leb.specs.CanonicalLaws.{vec_written};
ghost use Rattle.w_syntax.specs.Code.{Done, Plain};
ghost use Rattle.w_syntax.specs.Items.{code_of};
ghost use Rattle.w_syntax.specs.declared.instructions.Op.TheVariants as op;
ghost use Rattle.w_syntax.specs.Packed.{unpacked};
ghost use Rattle.w_encode.specs.InstructionsWritten.{expr_written};
ghost use Rattle.w_encode.specs.FlatWritten.{function_in};
ghost use Rattle.w_encode.specs.FieldsWritten.{referred_by, function_of, are_functions, function_written, is_ref_func, is_funcref, index_form, active_form, expression_form, elem_written, data_form, data_written};

use crate::put::{Put, put_bytes, put_count};
use std::alloc::AllocError;
use w_syntax::{
    Body, Data, DataMode, Elem, ElemMode, Instr, ItemView, Items, Op, PackedInstr, ReferenceOp,
};
use w_types::{HeapType, RefType};

// The function that an instruction refers to.
fn referred_by(op: &Op) -> Option<u32>
    ensures { result ≡ referred_by op.now }
{
    match op {
        Op::Reference(ReferenceOp::Func(function)) => Some(*function),
        _ => None,
    }
}

fn function_in(instr: &Instr) -> Option<u32>
    ensures { result ≡ function_in instr.now }
{
    match instr {
        Instr::Plain(op) => referred_by(op),
        _ => None,
    }
}

fn packed_function(packed: &PackedInstr) -> Option<u32>
    ensures { result ≡ function_in (unpacked packed.now) }
{
    match packed {
        PackedInstr::Reference(ReferenceOp::Func(function)) => Some(*function),
        PackedInstr::Boxed(instr) => function_in(instr),
        _ => None,
    }
}

// The function of a body that is one `ref.func`.
fn function_of_body(body: &Body) -> Option<u32>
    ensures { result ≡ function_of body.now }
{
    packed_function(body.only()?)
}

// The function of an item that is one `ref.func`.
fn function_of(item: ItemView<'_>) -> Option<u32>
    ensures { result ≡ function_of (code_of item.entry) }
{
    match item {
        ItemView::Function(function) => Some(function),
        ItemView::Null(_) => None,
        ItemView::Expression(body) => function_of_body(body),
    }
}

// Whether it is `(ref func)`.
fn is_ref_func(kind: RefType) -> bool
    ensures { result ≡ is_ref_func kind }
{
    match kind.heap {
        HeapType::Func => !kind.nullable,
        _ => false,
    }
}

// Whether it is `funcref`.
fn is_funcref(kind: RefType) -> bool
    ensures { result ≡ is_funcref kind }
{
    match kind.heap {
        HeapType::Func => kind.nullable,
        _ => false,
    }
}

// Whether each item is one `ref.func`.
fn are_functions(items: &Items) -> bool
    ensures { result ≡ are_functions items.now }
{
    for place in 0..items.len() {
        if function_of(items.at(place)).is_none() {
            return false;
        }
    }
    true
}

// Writes an item by the index of its function, where it is one `ref.func`.
fn put_function(item: ItemView<'_>, out: &mut Vec<u8>) -> Result<(), AllocError>
    ensures { OnOk result (out.new.items ≡ out.old.items ++ function_written (code_of item.entry)) }
{
    match function_of(item) {
        Some(function) => function.put(out),
        None => Ok(()),
    }
}

// Writes functions by their indices, where each item is one `ref.func`.
fn put_functions(items: &Items, out: &mut Vec<u8>) -> Result<(), AllocError>
    ensures { OnOk result (out.new.items ≡ out.old.items ++ vec_written function_written items.now) }
{
    put_count(items.len(), out)?;
    for place in 0..items.len() {
        put_function(items.at(place), out)?;
    }
    Ok(())
}

// Writes a reference instruction as an expression.
fn put_reference(reference: ReferenceOp, out: &mut Vec<u8>) -> Result<(), AllocError>
    ensures { OnOk result (out.new.items ≡ out.old.items ++ expr_written (Plain (op.Reference reference) Done)) }
{
    reference.put(out)?;
    out.push(0x0B)?;
    Ok(())
}

// Writes an item as an expression.
fn put_expression(item: ItemView<'_>, out: &mut Vec<u8>) -> Result<(), AllocError>
    ensures { OnOk result (out.new.items ≡ out.old.items ++ expr_written (code_of item.entry)) }
{
    match item {
        ItemView::Function(function) => put_reference(ReferenceOp::Func(function), out),
        ItemView::Null(heap) => put_reference(ReferenceOp::Null(heap), out),
        ItemView::Expression(body) => body.put(out),
    }
}

// Writes items as expressions.
fn put_expressions(items: &Items, out: &mut Vec<u8>) -> Result<(), AllocError>
    ensures { OnOk result (out.new.items ≡ out.old.items ++ vec_written expr_written items.now) }
{
    put_count(items.len(), out)?;
    for place in 0..items.len() {
        put_expression(items.at(place), out)?;
    }
    Ok(())
}

fn put_index_form(mode: &ElemMode, items: &Items, out: &mut Vec<u8>) -> Result<(), AllocError>
    ensures { OnOk result (out.new.items ≡ out.old.items ++ index_form mode.now (vec_written function_written items.now)) }
{
    match mode {
        ElemMode::Active(0, place) => {
            out.push(0x00)?;
            place.put(out)?;
        }
        ElemMode::Active(table, place) => {
            out.push(0x02)?;
            table.put(out)?;
            place.put(out)?;
            out.push(0x00)?;
        }
        ElemMode::Passive => out.extend_from_slice(&[0x01, 0x00])?,
        ElemMode::Declarative => out.extend_from_slice(&[0x03, 0x00])?,
    }
    put_functions(items, out)
}

fn put_expression_form(elem: &Elem, out: &mut Vec<u8>) -> Result<(), AllocError>
    ensures { OnOk result (out.new.items ≡ out.old.items ++ expression_form elem.now.mode elem.now.kind (vec_written expr_written elem.now.items)) }
{
    match &elem.mode {
        ElemMode::Active(0, place) if is_funcref(elem.kind) => {
            out.push(0x04)?;
            place.put(out)?;
        }
        ElemMode::Active(table, place) => {
            out.push(0x06)?;
            table.put(out)?;
            place.put(out)?;
            elem.kind.put(out)?;
        }
        ElemMode::Passive => {
            out.push(0x05)?;
            elem.kind.put(out)?;
        }
        ElemMode::Declarative => {
            out.push(0x07)?;
            elem.kind.put(out)?;
        }
    }
    put_expressions(&elem.items, out)
}

impl Put for Elem {
    ghost written = { elem_written };

    fn put(&self, out: &mut Vec<u8>) -> Result<(), AllocError> {
        if is_ref_func(self.kind) && are_functions(&self.items) {
            put_index_form(&self.mode, &self.items, out)
        } else {
            put_expression_form(self, out)
        }
    }
}

impl Put for Data {
    ghost written = { data_written };

    fn put(&self, out: &mut Vec<u8>) -> Result<(), AllocError> {
        match &self.mode {
            DataMode::Active(0, place) => {
                out.push(0x00)?;
                place.put(out)?;
            }
            DataMode::Active(memory, place) => {
                out.push(0x02)?;
                memory.put(out)?;
                place.put(out)?;
            }
            DataMode::Passive => out.push(0x01)?,
        }
        put_bytes(self.bytes.as_slice(), out)
    }
}
