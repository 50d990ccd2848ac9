//! Calls, whatever the function is.
ghost use Rattle.std.specs.Prelude.{◌≡◌, ◌≤◌, Err};
ghost use Rattle.w_outside.specs.Outside.{Rose};
ghost use Rattle.w_call_ops.specs.Calling.{Calls, TailCalls, Invokes};
ghost use Rattle.w_plain.specs.Printing.{Printed};

use crate::program::KnownProgram;
use crate::stop::Stop;
use w_call_ops::{call_own, call_printer, invoke_own, invoke_printer};
use w_outside::Sink;
use w_segment::Stack;
use w_stands::Did;
use w_tables::{FuncEntry, Store};
use w_tail_ops::{tail_own, tail_printer};

/// Invokes the function that an instruction calls, by its address, once so many operands are gone.
#[inline(always)]
pub(crate) fn call<O: Sink>(
    program: KnownProgram,
    store: &mut Store,
    stack: &mut Stack,
    out: &mut O,
    address: u32,
    popped: usize,
) -> Result<Did, Stop>
    requires call { Calls address popped program.source.now store.old stack.old }
    ensures step { Printed result (O.held out.old) (O.held out.new) program.entry.source.now store.old stack.old store.new stack.new }
    ensures cause { result ≡ Err Stop.WriteFault → Rose (O.faults out.old) (O.faults out.new) }
    ensures later { O.faults out.old ≤ O.faults out.new }
{
    match store.function(address) {
        FuncEntry::Own(function) => {
            match call_own(
                program.runnable,
                store,
                stack,
                address,
                function,
                popped,
                true,
            ) {
                Ok(()) => Ok(Did::Went),
                Err(_) => Err(Stop::OutOfMemory),
            }
        }
        FuncEntry::Printer(printer) => {
            match call_printer(program.source, store, stack, out, address, printer, popped) {
                Ok(()) => Ok(Did::Went),
                Err(fault) => Err(Stop::of_fault(fault)),
            }
        }
    }
}

/// Invokes the function that a tail call names, by its address, in the place of the innermost frame, once so many operands are gone.
#[inline(never)]
pub(crate) fn tail_call<O: Sink>(
    program: KnownProgram,
    store: &mut Store,
    stack: &mut Stack,
    out: &mut O,
    address: u32,
    popped: usize,
) -> Result<Did, Stop>
    requires call { TailCalls address popped program.source.now store.old stack.old }
    ensures step { Printed result (O.held out.old) (O.held out.new) program.entry.source.now store.old stack.old store.new stack.new }
    ensures cause { result ≡ Err Stop.WriteFault → Rose (O.faults out.old) (O.faults out.new) }
    ensures later { O.faults out.old ≤ O.faults out.new }
{
    match store.function(address) {
        FuncEntry::Own(function) => {
            match tail_own(
                program.runnable,
                store,
                stack,
                address,
                function,
                popped,
                true,
            ) {
                Ok(()) => Ok(Did::Went),
                Err(_) => Err(Stop::OutOfMemory),
            }
        }
        FuncEntry::Printer(printer) => {
            match tail_printer(program.source, store, stack, out, address, printer, popped) {
                Ok(()) => Ok(Did::Went),
                Err(fault) => Err(Stop::of_fault(fault)),
            }
        }
    }
}

/// Invokes the function that a fresh segment begins with.
#[inline(always)]
pub(crate) fn invoke<O: Sink>(
    program: KnownProgram,
    store: &mut Store,
    stack: &mut Stack,
    out: &mut O,
) -> Result<Did, Stop>
    requires invoke { Invokes program.source.now store.old stack.old }
    ensures step { Printed result (O.held out.old) (O.held out.new) program.entry.source.now store.old stack.old store.new stack.new }
    ensures cause { result ≡ Err Stop.WriteFault → Rose (O.faults out.old) (O.faults out.new) }
    ensures later { O.faults out.old ≤ O.faults out.new }
{
    match store.function(stack.func()) {
        FuncEntry::Own(function) => match invoke_own(program.runnable, store, stack, function) {
            Ok(()) => Ok(Did::Went),
            Err(_) => Err(Stop::OutOfMemory),
        },
        FuncEntry::Printer(printer) => match invoke_printer(
            program.source,
            store,
            stack,
            out,
            printer,
        ) {
            Ok(()) => Ok(Did::Went),
            Err(fault) => Err(Stop::of_fault(fault)),
        },
    }
}
