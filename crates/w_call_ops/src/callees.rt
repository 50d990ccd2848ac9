//! Finding the function that an instruction calls (Core, execution, control instructions).
ghost use Rattle.std.specs.Prelude.{◌≡◌, [], IfErr, IfOk};
ghost use Rattle.w_syntax.specs.declared.instructions.Instr.TheVariants as flat;
ghost use Rattle.w_syntax.specs.declared.instructions.Op.TheVariants as op;
ghost use Rattle.w_canon.specs.IsClassesOf.{IsClassesOf};
ghost use Rattle.w_rules.specs.Spaces.{functions_of};
ghost use Rattle.w_stands.specs.Steps.{MovesAt, Follows};
ghost use Rattle.w_stands.specs.declared.did.Did.TheVariants as did;
ghost use Rattle.w_call_ops.specs.Calling.{GoesTo, onward, by_reference, by_table};

use w_canon::Classes;
use w_reduce::Trap;
use w_segment::Stack;
use w_stands::i32_of;
use w_syntax::Module;
use w_tables::Store;
use w_types::Value;

/// Whether what is called goes on in a frame of its own, or in the place of the frame that calls.
#[derive(Clone, Copy)]
pub enum CallKind {
    Nested,
    Tail,
}

/// The address of the function that `call_ref` or `return_call_ref` calls, or its trap: the topmost operand is a reference to it, or null.
#[inline(always)]
pub fn callee_by_reference(
    program: &Module,
    store: &Store,
    stack: &Stack,
    call: CallKind,
    kind: u32,
) -> Result<u32, Trap>
    requires moves { MovesAt (flat.Plain (op.Control (by_reference call kind))) program.now store.now stack.now }
    ensures found { IfOk result (λ a. GoesTo (onward call) a 1 program.now store.now stack.now) }
    ensures traps { IfErr result (λ t. Follows (did.Trapped t) program.now [] store.now stack.now store.now stack.now) }
{
    let (_program, _store, _call, _kind) = (program, store, call, kind);
    match stack.peek() {
        Value::Null => Err(Trap::NullReference),
        Value::Func(address) => Ok(address),
        _ => unreachable!(),
    }
}

/// The address of the function that `call_indirect` or `return_call_indirect` calls, or its trap: the topmost operand is its place in a table, and its type
/// matches the one named. `functions` has the index of each function's type, those that are imported in front.
#[inline(always)]
pub fn callee_by_table(
    program: &Module,
    classes: &Classes,
    functions: &[u32],
    store: &Store,
    stack: &Stack,
    call: CallKind,
    kind: u32,
    table: u32,
) -> Result<u32, Trap>
    requires moves { MovesAt (flat.Plain (op.Control (by_table call kind table))) program.now store.now stack.now }
    requires classes { IsClassesOf program.now.types classes.now }
    requires functions { functions.now ≡ functions_of program.now }
    ensures found { IfOk result (λ a. GoesTo (onward call) a 1 program.now store.now stack.now) }
    ensures traps { IfErr result (λ t. Follows (did.Trapped t) program.now [] store.now stack.now store.now stack.now) }
{
    let (_program, _call) = (program, call);
    let index = i32_of(stack.peek());
    let Some(element) = store.table_get(table, index) else {
        return Err(Trap::UndefinedElement);
    };
    match element {
        Value::Null => Err(Trap::NullElement),
        Value::Func(address) => {
            let own = functions[address as usize];
            if classes.matches_index(own, kind) {
                Ok(address)
            } else {
                Err(Trap::CallTypeMismatch)
            }
        }
        _ => unreachable!(),
    }
}
