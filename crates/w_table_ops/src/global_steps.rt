//! Instructions on globals (Core, execution, variable instructions).
ghost use Rattle.std.specs.Prelude.{◌≡◌, []};
ghost use Rattle.w_syntax.specs.declared.instructions.Instr.TheVariants as flat;
ghost use Rattle.w_syntax.specs.declared.instructions.Op.TheVariants as op;
ghost use Rattle.w_syntax.specs.declared.instructions.VariableOp.TheVariants as variable;
ghost use Rattle.w_stands.specs.Keeps.{KeepsAll};
ghost use Rattle.w_stands.specs.Steps.{MovesAt, Follows, Stays};
ghost use Rattle.w_stands.specs.declared.did.Did.TheVariants as did;

use w_segment::Stack;
use w_stands::{drop_next, push_next};
use w_syntax::Module;
use w_tables::Store;

/// One reduction of `global.get` (Core, execution, `global.get`).
pub fn global_get(program: &Module, store: &Store, stack: &mut Stack, index: u32)
    requires moves { MovesAt (flat.Plain (op.Variable (variable.GlobalGet index))) program.now store.now stack.old }
    ensures goes { Follows did.Went program.now [] store.now stack.old store.now stack.new }
    ensures keeps { KeepsAll store.now stack.old store.now stack.new }
    ensures stays { Stays stack.old stack.new }
{
    let _program = program;
    let value = store.global_get(index);
    push_next(stack, value);
}

/// One reduction of `global.set` (Core, execution, `global.set`).
pub fn global_set(program: &Module, store: &mut Store, stack: &mut Stack, index: u32)
    requires moves { MovesAt (flat.Plain (op.Variable (variable.GlobalSet index))) program.now store.old stack.old }
    ensures goes { Follows did.Went program.now [] store.old stack.old store.new stack.new }
    ensures keeps { KeepsAll store.old stack.old store.new stack.new }
    ensures stays { Stays stack.old stack.new }
    ensures memories { store.new.memories ≡ store.old.memories }
{
    let _program = program;
    let value = stack.peek();
    store.global_set(index, value);
    drop_next(stack, 1);
}
