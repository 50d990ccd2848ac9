//! Invoking a function by a tail call. Room is asked for, and text written, before the frame goes, so that a stack that can't go on stays
//! as it was.
ghost use Rattle.std.specs.Prelude.{◌≡◌, [], IsErrOf, OnErr, OnOk, slice_get};
ghost use Rattle.w_outside.specs.Outside.{Grew, GrewByFront, HasCause};
ghost use Rattle.w_tables.specs.declared.entries.FuncEntry.TheVariants as entry;
ghost use Rattle.w_stands.specs.Keeps.{Keeps};
ghost use Rattle.w_stands.specs.Room.{Roomier};
ghost use Rattle.w_stands.specs.Steps.{Follows};
ghost use Rattle.w_stands.specs.declared.did.Did.TheVariants as did;
ghost use Rattle.w_call_ops.specs.Calling.{TailCalls};
ghost use Rattle.w_call_ops.specs.Printing.{text_of};

use std::alloc::AllocError;
use w_call_ops::{Callees, argument, enter_callee, room_for_callee, spelled};
use w_control_ops::end_outside;
use w_outside::{Fault, Sink, put};
use w_segment::Stack;
use w_syntax::Module;
use w_tables::{Printer, Store};

/// Invokes the function of the module that a tail call names, by its address and its index among the module's own, in the place of the
/// innermost frame, once so many operands are gone. It fails only when out of memory, or where there is no room and none may be asked
/// for, and then the stack is as it was but for room.
#[inline(always)]
pub fn tail_own(
    program: &Callees,
    store: &Store,
    stack: &mut Stack,
    address: u32,
    function: u32,
    popped: usize,
    may_grow: bool,
) -> Result<(), AllocError>
    requires call { TailCalls address popped program.now store.now stack.old }
    requires own { slice_get store.now.functions address ≡ Some (entry.Own function) }
    ensures goes { OnOk result (Follows did.Went program.now [] store.now stack.old store.now stack.new) }
    ensures keeps { OnOk result (Keeps stack.old stack.new) }
    ensures err { OnErr result (Roomier stack.old stack.new) }
{
    let (_store, _address) = (store, address);
    let facts = program.facts(function);
    room_for_callee(stack, facts, may_grow)?;
    stack.discard(popped);
    stack.leave_frame(facts.params);
    enter_callee(program, stack, function, facts);
    Ok(())
}

/// Calls a function of the host by a tail call, once so many operands are gone: it prints the number beneath them, and the innermost
/// frame is left with nothing. It fails where the sink fails or is out of memory, and then the stack is as it was, and the sink has taken
/// a first part of the text.
pub fn tail_printer<O: Sink>(
    program: &Module,
    store: &Store,
    stack: &mut Stack,
    out: &mut O,
    address: u32,
    printer: Printer,
    popped: usize,
) -> Result<(), Fault>
    requires call { TailCalls address popped program.now store.now stack.old }
    requires host { slice_get store.now.functions address ≡ Some (entry.Printer printer) }
    ensures goes { OnOk result (Follows did.Went program.now (text_of printer popped stack.old.operands) store.now stack.old store.now stack.new) }
    ensures printed { OnOk result (Grew (O.held out.old) (O.held out.new) (text_of printer popped stack.old.operands)) }
    ensures keeps { OnOk result (Keeps stack.old stack.new) }
    ensures stack { OnErr result (stack.new ≡ stack.old) }
    ensures part { OnErr result (GrewByFront (O.held out.old) (O.held out.new) (text_of printer popped stack.old.operands)) }
    ensures cause { HasCause (O.faults out.old) (O.faults out.new) result }
    ensures memory { IsErrOf result Fault.OutOfMemory → O.allocates }
{
    let (_program, _store, _address) = (program, store, address);
    let _count = stack.count();
    let text = spelled(printer, argument(stack, popped));
    put(out, text.as_slice())?;
    stack.discard(popped + 1);
    stack.leave_frame(0);
    end_outside(stack);
    Ok(())
}
