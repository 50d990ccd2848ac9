//! The code of slots.
ghost use Rattle.std.specs.Prelude.{◌≡◌, ◌≤◌, OnOk};
ghost use Rattle.w_syntax.specs.Code.{Code};
ghost use Rattle.s_code.specs.Slots.{places_of, to_place, store_code, take_code};
ghost use Rattle.s_code.specs.Writes.{Writes};

use crate::layout::Layout;
use crate::operators::{write_get, write_numeric, write_op, write_set};
use s_index::{Program, RESUMPTION};
use s_syntax::Name;
use std::alloc::AllocError;
use w_syntax::{Cvtop, IntType, NumericOp, Op, ParametricOp, ReferenceOp, Relop, TableOp, Token};
use w_types::HeapType;

// How many places the slots of this name have.
fn places<'a>(program: &Program<'a>, slots: &'a Name) -> u64
    ensures value { result ≡ places_of program.now slots.now }
    ensures small { result ≤ 9223372036854775807 }
{
    match program.slots(slots) {
        Some(slots) => slots.places.value,
        None => 0,
    }
}

// Writes what makes a place, of so many, of the number on the stack. The local keeps the number.
fn write_to_place(local: u32, places: u64, out: &mut Vec<Token>) -> Result<(), AllocError>
    requires { places ≤ 9223372036854775807 }
    ensures writes { OnOk result ((c : Code) → Writes out.old.items (to_place local places c) out.new.items c) }
{
    write_set(local, out)?;
    write_get(local, out)?;
    write_numeric(NumericOp::Convert(Cvtop::I32WrapI64), out)?;
    write_numeric(NumericOp::I32Const(-1), out)?;
    write_get(local, out)?;
    write_numeric(NumericOp::I64Const(places as i64), out)?;
    write_numeric(NumericOp::Compare(IntType::I64, Relop::LtU), out)?;
    write_op(Op::Parametric(ParametricOp::Select), out)
}

/// Writes the storing of what a name has, at the place of the number on the stack. It fails only for want of memory.
pub(crate) fn write_store<'a>(
    program: &Program<'a>,
    layout: &Layout<'a>,
    slots: &'a Name,
    name: &'a Name,
    out: &mut Vec<Token>,
) -> Result<(), AllocError>
    ensures writes { OnOk result ((c : Code) → Writes out.old.items (store_code program.now layout.now slots.now name.now c) out.new.items c) }
{
    write_to_place(layout.temporaries(), places(program, slots), out)?;
    write_get(layout.local_number(name), out)?;
    write_op(Op::Table(TableOp::Set(program.table_index(slots))), out)
}

/// Writes the taking of what stands at the place of the number on the stack, which a name has then, and which is taken away there. It fails
/// only for want of memory.
pub(crate) fn write_take<'a>(
    program: &Program<'a>,
    layout: &Layout<'a>,
    name: &'a Name,
    slots: &'a Name,
    out: &mut Vec<Token>,
) -> Result<(), AllocError>
    ensures writes { OnOk result ((c : Code) → Writes out.old.items (take_code program.now layout.now name.now slots.now c) out.new.items c) }
{
    let number = layout.temporaries();
    let table = program.table_index(slots);
    write_to_place(number, places(program, slots), out)?;
    write_op(Op::Table(TableOp::Get(table)), out)?;
    write_op(Op::Reference(ReferenceOp::AsNonNull), out)?;
    write_set(layout.local_number(name), out)?;
    write_get(number, out)?;
    write_numeric(NumericOp::Convert(Cvtop::I32WrapI64), out)?;
    write_op(
        Op::Reference(ReferenceOp::Null(HeapType::Index(RESUMPTION))),
        out,
    )?;
    write_op(Op::Table(TableOp::Set(table)), out)
}
