//! The functions of the host, which print a number.
ghost use Rattle.std.specs.Prelude.{◌≡◌, ◌<◌, ◌++◌, ◌∷◌, [], drop, length, IsErrOf, OnErr, OnOk, slice_get};
ghost use Rattle.w_tables.specs.declared.entries.FuncEntry.TheVariants as entry;
ghost use Rattle.w_outside.specs.Outside.{Grew, GrewByFront, HasCause};
ghost use Rattle.w_stands.specs.Keeps.{Keeps};
ghost use Rattle.w_stands.specs.Steps.{Follows};
ghost use Rattle.w_stands.specs.declared.did.Did.TheVariants as did;
ghost use Rattle.w_call_ops.specs.Calling.{Calls, Invokes};
ghost use Rattle.w_stands.specs.Numbers.{IsNumber, bits_in};
ghost use Rattle.w_call_ops.specs.Printing.{taken_by, printed, first, text_of};

use arrayvec::ArrayVec;
use itoa::{Buffer, Integer};
use w_outside::{Fault, Sink, put};
use w_segment::{Stack, Stage};
use w_stands::{drop_next, i32_of, i64_of};
use w_syntax::Module;
use w_tables::{Printer, Store};
use w_types::Value;

// A line with a number: itoa writes forty bytes at most.
fn number_line<I: Integer>(number: I) -> ArrayVec<u8, 41>
    ensures { result.items ≡ I.text number ++ 10 ∷ [] }
{
    let mut buffer = Buffer::new();
    let mut line = ArrayVec::new();
    let Ok(()) = line.try_extend_from_slice(buffer.format(number).as_bytes()) else {
        unreachable!()
    };
    line.push(b'\n');
    line
}

/// What a function of the host prints of a number.
pub fn spelled(printer: Printer, value: Value) -> ArrayVec<u8, 41>
    requires { IsNumber (taken_by printer) value }
    ensures { result.items ≡ printed printer (bits_in value) }
{
    match printer {
        Printer::I32 => number_line(i32_of(value).cast_signed()),
        Printer::I64 => number_line(i64_of(value).cast_signed()),
        Printer::Byte => {
            let mut byte = ArrayVec::new();
            byte.push((i32_of(value) % 256) as u8);
            byte
        }
    }
}

/// The topmost operand but so many.
pub fn argument(stack: &Stack, popped: usize) -> Value
    requires { popped < length stack.now.operands }
    ensures { result ≡ first (drop popped stack.now.operands) }
{
    let _count = stack.count();
    let tops = stack.tops(popped + 1);
    tops[0]
}

/// Calls a function of the host by an instruction, once so many operands are gone: it prints the number beneath them. It fails where the
/// sink fails or is out of memory, and then the stack is as it was, and the sink has taken a first part of the text.
pub fn call_printer<O: Sink>(
    program: &Module,
    store: &Store,
    stack: &mut Stack,
    out: &mut O,
    address: u32,
    printer: Printer,
    popped: usize,
) -> Result<(), Fault>
    requires call { Calls address popped program.now store.now stack.old }
    requires host { slice_get store.now.functions address ≡ Some (entry.Printer printer) }
    ensures goes { OnOk result (Follows did.Went program.now (text_of printer popped stack.old.operands) store.now stack.old store.now stack.new) }
    ensures printed { OnOk result (Grew (O.held out.old) (O.held out.new) (text_of printer popped stack.old.operands)) }
    ensures keeps { OnOk result (Keeps stack.old stack.new) }
    ensures stack { OnErr result (stack.new ≡ stack.old) }
    ensures part { OnErr result (GrewByFront (O.held out.old) (O.held out.new) (text_of printer popped stack.old.operands)) }
    ensures cause { HasCause (O.faults out.old) (O.faults out.new) result }
    ensures memory { IsErrOf result Fault.OutOfMemory → O.allocates }
{
    let (_program, _store, _address) = (program, store, address);
    let _count = stack.count();
    let text = spelled(printer, argument(stack, popped));
    put(out, text.as_slice())?;
    drop_next(stack, popped + 1);
    Ok(())
}

/// Invokes the function of the host that a fresh segment begins with. It fails as `call_printer` does.
pub fn invoke_printer<O: Sink>(
    program: &Module,
    store: &Store,
    stack: &mut Stack,
    out: &mut O,
    printer: Printer,
) -> Result<(), Fault>
    requires invoke { Invokes program.now store.now stack.old }
    requires host { slice_get store.now.functions stack.old.func ≡ Some (entry.Printer printer) }
    ensures goes { OnOk result (Follows did.Went program.now (text_of printer 0 stack.old.operands) store.now stack.old store.now stack.new) }
    ensures printed { OnOk result (Grew (O.held out.old) (O.held out.new) (text_of printer 0 stack.old.operands)) }
    ensures keeps { OnOk result (Keeps stack.old stack.new) }
    ensures stack { OnErr result (stack.new ≡ stack.old) }
    ensures part { OnErr result (GrewByFront (O.held out.old) (O.held out.new) (text_of printer 0 stack.old.operands)) }
    ensures cause { HasCause (O.faults out.old) (O.faults out.new) result }
    ensures memory { IsErrOf result Fault.OutOfMemory → O.allocates }
{
    let (_program, _store) = (program, store);
    let text = spelled(printer, argument(stack, 0));
    put(out, text.as_slice())?;
    stack.discard(1);
    stack.set_stage(Stage::Values);
    Ok(())
}
