//! The code of coroutines.
ghost use Rattle.std.specs.Prelude.{◌≡◌, OnOk};
ghost use Rattle.w_syntax.specs.Code.{Code};
ghost use Rattle.s_code.specs.Coroutines.{group_code, spawn_code, switch_code};
ghost use Rattle.s_code.specs.Writes.{Writes};

use crate::layout::Layout;
use crate::operators::{write_get, write_op, write_set, write_switching};
use lists::ListOf;
use s_index::{COROUTINE, Program, RESUMPTION};
use s_syntax::Name;
use std::alloc::AllocError;
use w_syntax::{Clause, Op, ReferenceOp, SwitchingOp, Token};

/// Writes a group around a function, which gets the number on the stack. It fails only for want of memory.
pub(crate) fn write_group<'a>(
    program: &Program<'a>,
    function: &'a Name,
    out: &mut Vec<Token>,
) -> Result<(), AllocError>
    ensures writes { OnOk result ((c : Code) → Writes out.old.items (group_code program.now function.now c) out.new.items c) }
{
    let mut clauses = ListOf::new(*out.allocator());
    clauses.push(Clause::Switch(program.group_tag_index()))?;
    let index = program.function_index(function);
    write_op(Op::Reference(ReferenceOp::Func(index)), out)?;
    write_switching(SwitchingOp::ContNew(RESUMPTION), out)?;
    write_switching(SwitchingOp::Resume(RESUMPTION, clauses), out)
}

/// Writes a fresh coroutine, which a name has then. It fails only for want of memory.
pub(crate) fn write_spawn<'a>(
    program: &Program<'a>,
    layout: &Layout<'a>,
    name: &'a Name,
    function: &'a Name,
    out: &mut Vec<Token>,
) -> Result<(), AllocError>
    ensures writes { OnOk result ((c : Code) → Writes out.old.items (spawn_code program.now layout.now name.now function.now c) out.new.items c) }
{
    let index = program.function_index(function);
    write_op(Op::Reference(ReferenceOp::Func(index)), out)?;
    write_switching(SwitchingOp::ContNew(COROUTINE), out)?;
    write_set(layout.local_number(name), out)
}

/// Writes a switch to the coroutine that a name has, with the number on the stack; two names have what is given when it is switched back. It
/// fails only for want of memory.
pub(crate) fn write_switch<'a>(
    program: &Program<'a>,
    layout: &Layout<'a>,
    number: &'a Name,
    coroutine: &'a Name,
    target: &'a Name,
    out: &mut Vec<Token>,
) -> Result<(), AllocError>
    ensures writes { OnOk result ((c : Code) → Writes out.old.items (switch_code program.now layout.now number.now coroutine.now target.now c) out.new.items c) }
{
    write_get(layout.local_number(target), out)?;
    write_switching(
        SwitchingOp::Switch(COROUTINE, program.group_tag_index()),
        out,
    )?;
    write_set(layout.local_number(coroutine), out)?;
    write_set(layout.local_number(number), out)
}
