//! Exits of labels and frames, where sequences end.
ghost use Rattle.std.specs.Prelude.{[]};
ghost use Rattle.w_syntax.specs.declared.instructions.Instr.TheVariants as flat;
ghost use Rattle.w_stands.specs.Steps.{MovesAt};
ghost use Rattle.w_control_ops.specs.Exits.{IsEnd};
ghost use Rattle.w_plain.specs.Stepped.{Takes};
ghost use Rattle.w_plain.specs.Meets.{Meets};

use w_control_ops::{exit_else, exit_end};
use w_segment::Stack;
use w_stands::Did;
use w_syntax::Module;
use w_tables::Store;

/// An exit at an end, or behind the last instruction.
#[inline(always)]
#[tactic(auto, using(crate::proofs::Ends::exits_alone, crate::proofs::Ends::at_end, crate::proofs::Steps::takes_alone))]
pub(crate) fn leave_end(program: &Module, store: &mut Store, stack: &mut Stack) -> Did
    requires exits { Meets IsEnd program.now store.old stack.old }
    ensures step { Takes result program.now [] store.old stack.old store.new stack.new }
{
    let _store = store;
    exit_end(program, stack);
    Did::Went
}

/// An exit at an else.
#[inline(always)]
#[tactic(auto, using(crate::proofs::Ends::else_alone, crate::proofs::Steps::takes_alone))]
pub(crate) fn leave_else(program: &Module, store: &mut Store, stack: &mut Stack) -> Did
    requires moves { MovesAt flat.Else program.now store.old stack.old }
    ensures step { Takes result program.now [] store.old stack.old store.new stack.new }
{
    let _store = store;
    exit_else(program, stack);
    Did::Went
}
