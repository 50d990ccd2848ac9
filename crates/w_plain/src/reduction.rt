//! One plain reduction of a segment's stack.
ghost use Rattle.std.specs.Prelude.{◌≡◌, ◌≢◌, ◌≤◌, false, [], Err, option_map};
ghost use Rattle.w_syntax.specs.Packed.{unpacked};
ghost use Rattle.w_stands.specs.Code.{instr_of};
ghost use Rattle.w_segment.specs.declared.entry.Stage.TheVariants.{Body, Branch, Values};
ghost use Rattle.w_outside.specs.Outside.{Rose};
ghost use Rattle.w_plain.specs.Meets.{Applies};
ghost use Rattle.w_plain.specs.Plainness.{switches_at};
ghost use Rattle.w_plain.specs.Printing.{Printed};
ghost use Rattle.w_plain.specs.Stepped.{Takes};
ghost use Rattle.w_stands.specs.declared.did.Did.TheVariants as did;

use crate::calls::invoke;
use crate::exits::leave_end;
use crate::packed_steps::instruction;
use crate::program::KnownProgram;
use crate::stop::Stop;
use w_control_ops::branch_left;
use w_outside::Sink;
use w_segment::{Stack, Stage};
use w_stands::Did;
use w_syntax::{Module, PackedInstr};
use w_tables::Store;

/// One reduction in the body where the stack stands.
#[inline(always)]
#[tactic(auto, using(crate::proofs::StacksAtRules::at_instruction, crate::proofs::StacksAtRules::behind_all, crate::proofs::Prints::printed_takes))]
fn in_body<O: Sink>(
    program: KnownProgram,
    store: &mut Store,
    stack: &mut Stack,
    out: &mut O,
    found: Option<&PackedInstr>,
) -> Result<Did, Stop>
    requires applies { Applies program.source.now store.old stack.old }
    requires body { stack.old.stage ≡ Body }
    requires found { option_map (λ p. unpacked p.now) found ≡ instr_of program.source.now stack.old.func stack.old.place }
    requires plain { switches_at (instr_of program.source.now stack.old.func stack.old.place) ≡ false }
    ensures step { Printed result (O.held out.old) (O.held out.new) program.entry.source.now store.old stack.old store.new stack.new }
    ensures cause { result ≡ Err Stop.WriteFault → Rose (O.faults out.old) (O.faults out.new) }
    ensures later { O.faults out.old ≤ O.faults out.new }
{
    match found {
        Some(packed) => instruction(program, store, stack, out, packed),
        None => Ok(leave_end(program.source, store, stack)),
    }
}

/// The branch that a caught suspend left (stack-switching explainer, suspend), as `plain` takes it: it prints nothing, and takes no memory.
#[inline(always)]
#[tactic(auto, using(crate::proofs::StacksAtRules::branches, crate::proofs::Steps::takes_alone))]
pub fn branch_of_suspend(program: &Module, store: &mut Store, stack: &mut Stack, label: u32)
    requires applies { Applies program.now store.old stack.old }
    requires left { stack.old.stage ≡ Branch label }
    ensures step { Takes did.Went program.now [] store.old stack.old store.new stack.new }
{
    let _store = store;
    branch_left(program, stack, label);
}

/// One plain reduction (Core, execution): of the configuration in which the stack stands, whatever stands around it, with the store, and
/// with what it prints. It traps as the rules do, and then nothing changed. It stops where the sink fails or memory runs out: then no
/// reduction was taken, all is as it was but for room, and the sink has a first part of what the reduction prints, or nothing more.
/// `found` is what `instr_at` finds where the stack stands in a body.
#[inline(always)]
#[tactic(auto, using(crate::proofs::StacksAtRules::invokes, crate::proofs::StacksAtRules::branches, crate::proofs::Prints::printed_alone))]
pub fn plain<O: Sink>(
    program: KnownProgram,
    store: &mut Store,
    stack: &mut Stack,
    out: &mut O,
    found: Option<&PackedInstr>,
) -> Result<Did, Stop>
    requires applies { Applies program.source.now store.old stack.old }
    requires inside { stack.old.stage ≢ Values }
    requires found { stack.old.stage ≡ Body → option_map (λ p. unpacked p.now) found ≡ instr_of program.source.now stack.old.func stack.old.place }
    requires plain { stack.old.stage ≡ Body → switches_at (instr_of program.source.now stack.old.func stack.old.place) ≡ false }
    ensures step { Printed result (O.held out.old) (O.held out.new) program.entry.source.now store.old stack.old store.new stack.new }
    ensures cause { result ≡ Err Stop.WriteFault → Rose (O.faults out.old) (O.faults out.new) }
    ensures later { O.faults out.old ≤ O.faults out.new }
{
    match stack.stage() {
        Stage::Body => in_body(program, store, stack, out, found),
        Stage::Fresh => invoke(program, store, stack, out),
        Stage::Branch(label) => {
            branch_left(program.source, stack, label);
            Ok(Did::Went)
        }
        Stage::Values => unreachable!(),
    }
}
