//! Reference instructions (Core, execution, reference instructions).
ghost use Rattle.std.specs.Prelude.{◌≡◌, []};
ghost use Rattle.w_syntax.specs.declared.instructions.Instr.TheVariants as flat;
ghost use Rattle.w_syntax.specs.declared.instructions.Op.TheVariants as op;
ghost use Rattle.w_syntax.specs.declared.instructions.ReferenceOp.TheVariants as reference;
ghost use Rattle.w_stands.specs.Keeps.{Keeps};
ghost use Rattle.w_stands.specs.Steps.{MovesAt, MovesAlone, Follows, FollowsAlone};
ghost use Rattle.w_stands.specs.declared.did.Did.TheVariants as did;

use w_reduce::Trap;
use w_segment::Stack;
use w_stands::{Did, is_null, next, push_next, replace};
use w_syntax::Module;
use w_tables::Store;
use w_types::{HeapType, Value};

/// `ref.null` (Core, execution, `ref.null`).
pub fn ref_null(program: &Module, stack: &mut Stack, heap: HeapType)
    requires moves { MovesAlone (flat.Plain (op.Reference (reference.Null heap))) program.now stack.old }
    ensures goes { FollowsAlone did.Went program.now stack.old stack.new }
    ensures keeps { Keeps stack.old stack.new }
{
    let _program = program;
    let _heap = heap;
    push_next(stack, Value::Null);
}

/// `ref.is_null` (Core, execution, `ref.is_null`).
pub fn ref_is_null(program: &Module, stack: &mut Stack)
    requires moves { MovesAlone (flat.Plain (op.Reference reference.IsNull)) program.now stack.old }
    ensures goes { FollowsAlone did.Went program.now stack.old stack.new }
    ensures keeps { Keeps stack.old stack.new }
{
    let _program = program;
    let number = u32::from(is_null(stack.peek()));
    replace(stack, 1, Value::I32(number));
}

/// `ref.func` (Core, execution, `ref.func`).
pub fn ref_func(program: &Module, store: &Store, stack: &mut Stack, function: u32)
    requires moves { MovesAt (flat.Plain (op.Reference (reference.Func function))) program.now store.now stack.old }
    ensures goes { Follows did.Went program.now [] store.now stack.old store.now stack.new }
    ensures keeps { Keeps stack.old stack.new }
{
    let _program = program;
    let _store = store;
    push_next(stack, Value::Func(function));
}

/// `ref.as_non_null` (Core, execution, `ref.as_non_null`), or its trap.
pub fn ref_as_non_null(program: &Module, stack: &mut Stack) -> Did
    requires moves { MovesAlone (flat.Plain (op.Reference reference.AsNonNull)) program.now stack.old }
    ensures goes { FollowsAlone result program.now stack.old stack.new }
    ensures keeps { Keeps stack.old stack.new }
{
    let _program = program;
    if is_null(stack.peek()) {
        Did::Trapped(Trap::NullReference)
    } else {
        next(stack);
        Did::Went
    }
}
