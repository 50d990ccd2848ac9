//! Attempts at control instructions.
ghost use Rattle.std.specs.Prelude.{◌≡◌, false, true, Some, slice_get};
ghost use Rattle.w_syntax.specs.Packed.{control_of};
ghost use Rattle.w_syntax.specs.declared.instructions.Instr.TheVariants as flat;
ghost use Rattle.w_syntax.specs.declared.instructions.Op.TheVariants as op;
ghost use Rattle.w_syntax.specs.declared.packed.PackedInstr.TheVariants as packed;
ghost use Rattle.w_syntax.specs.declared.packed.ShortControlOp.TheVariants as short;
ghost use Rattle.w_segment.specs.Shape.{Shape};
ghost use Rattle.w_segment.specs.declared.entry.Stage.TheVariants.{Body};
ghost use Rattle.w_stands.specs.Steps.{MovesAt, Stays};
ghost use Rattle.w_plain.specs.Commonness.{is_call};
ghost use Rattle.w_plain.specs.Plainness.{switches_at, calls_at};
ghost use Rattle.w_plain.specs.declared.progress.Progress.TheVariants as progress;
ghost use Rattle.w_plain.specs.Attempted.{attempt_of, Attempted, AttemptsMove, goes_on, was_made, is_own, is_branch_table, is_attempted};

use crate::controls::branching;
use crate::progress::Progress;
use std::alloc::AllocError;
use w_call_ops::{Callees, call_own};
use w_control_ops::br_table;
use w_segment::{Stack, Stage};
use w_stands::Did;
use w_syntax::{ControlOp, Instr, Module, Op, ShortControlOp};
use w_tables::{FuncEntry, Store};
use w_tail_ops::tail_own;

/// The attempt at a reduction that came to this.
#[inline(always)]
pub(crate) fn progress_of(outcome: Result<Did, AllocError>) -> Progress
    ensures { result ≡ attempt_of outcome }
{
    match outcome {
        Ok(Did::Went) => Progress::Went,
        Ok(Did::Trapped(_)) => Progress::Trapped,
        Err(_) => Progress::NoRoom,
    }
}

/// The attempt at a reduction that came to this, where the stack stood in the body of this function and may stand elsewhere.
#[inline(always)]
pub(crate) fn move_of(stack: &Stack, function: u32, outcome: Did) -> Progress
    ensures moves { (s : Shape) → s.func ≡ function → s.stage ≡ Body → AttemptsMove outcome result s stack.now }
    ensures made { was_made result ≡ true }
{
    match outcome {
        Did::Went => match stack.stage() {
            Stage::Body if stack.func() == function => Progress::Went,
            _ => Progress::Moved,
        },
        Did::Trapped(_) => Progress::Trapped,
    }
}

// A call of a function of the module.
#[inline(always)]
#[tactic(auto, using(crate::proofs::Prints::call_calls))]
fn call(
    program: &Module,
    runnable: &Callees,
    store: &mut Store,
    stack: &mut Stack,
    address: u32,
) -> Progress
    requires same { runnable.now ≡ program.now }
    requires moves { MovesAt (flat.Plain (op.Control (control_of (short.Call address)))) program.now store.old stack.old }
    ensures step { Attempted result program.now store.old stack.old store.new stack.new }
    ensures made { was_made result ≡ is_own (slice_get store.old.functions address) }
    ensures went { goes_on result ≡ false }
{
    match store.function(address) {
        FuncEntry::Own(function) => {
            // where it has no room the whole step asks for it, so that each growth is asked for once
            match call_own(runnable, store, stack, address, function, 0, false) {
                Ok(()) => Progress::Entered,
                Err(_) => Progress::NoRoom,
            }
        }
        FuncEntry::Printer(_) => Progress::NotAttempted,
    }
}

// A tail call of a function of the module.
#[inline(always)]
#[tactic(auto, using(crate::proofs::Prints::call_tails))]
fn tail_call(
    program: &Module,
    runnable: &Callees,
    store: &mut Store,
    stack: &mut Stack,
    address: u32,
) -> Progress
    requires same { runnable.now ≡ program.now }
    requires moves { MovesAt (flat.Plain (op.Control (control_of (short.ReturnCall address)))) program.now store.old stack.old }
    ensures step { Attempted result program.now store.old stack.old store.new stack.new }
    ensures made { was_made result ≡ is_own (slice_get store.old.functions address) }
    ensures went { goes_on result ≡ false }
{
    match store.function(address) {
        FuncEntry::Own(function) => {
            match tail_own(runnable, store, stack, address, function, 0, false) {
                Ok(()) => Progress::Entered,
                Err(_) => Progress::NoRoom,
            }
        }
        FuncEntry::Printer(_) => Progress::NotAttempted,
    }
}

/// A control instruction that holds no list.
#[inline(always)]
#[tactic(auto, using(crate::proofs::Steps::alone, crate::proofs::AttemptedReductions::nothing_attempted))]
pub(crate) fn control(
    program: &Module,
    runnable: &Callees,
    store: &mut Store,
    stack: &mut Stack,
    operation: ShortControlOp,
) -> Progress
    requires same { runnable.now ≡ program.now }
    requires moves { MovesAt (flat.Plain (op.Control (control_of operation))) program.now store.old stack.old }
    ensures step { Attempted result program.now store.old stack.old store.new stack.new }
    ensures made { was_made result ≡ is_attempted store.old.functions (packed.Control operation) }
    ensures went { goes_on result ≡ true → is_call operation ≡ false }
    ensures stays { result ≡ progress.Went → Stays stack.old stack.new }
{
    match operation {
        ShortControlOp::Call(function) => call(program, runnable, store, stack, function),
        ShortControlOp::CallIndirect(_, _) => Progress::NotAttempted,
        ShortControlOp::CallRef(_) => Progress::NotAttempted,
        ShortControlOp::ReturnCall(function) => tail_call(
            program, runnable, store, stack, function,
        ),
        ShortControlOp::ReturnCallIndirect(_, _) => Progress::NotAttempted,
        ShortControlOp::ReturnCallRef(_) => Progress::NotAttempted,
        _ => {
            let function = stack.func();
            let outcome = branching(program, stack, operation);
            move_of(stack, function, outcome)
        }
    }
}

/// A `br_table`.
#[inline(always)]
#[tactic(auto, using(crate::proofs::Steps::alone, crate::proofs::AttemptedReductions::attempted_alone, crate::proofs::AttemptedReductions::nothing_attempted))]
pub(crate) fn attempt_boxed(
    program: &Module,
    store: &mut Store,
    stack: &mut Stack,
    instr: &Instr,
) -> Progress
    requires moves { switches_at (Some instr.now) ≡ false → MovesAt instr.now program.now store.old stack.old }
    requires body { stack.old.stage ≡ Body }
    ensures step { Attempted result program.now store.old stack.old store.new stack.new }
    ensures made { was_made result ≡ is_branch_table instr.now }
    ensures went { goes_on result ≡ true → calls_at (Some instr.now) ≡ false }
    ensures stays { result ≡ progress.Went → Stays stack.old stack.new }
{
    let _store = store;
    let function = stack.func();
    if let Instr::Plain(Op::Control(ControlOp::BrTable(labels, last))) = instr {
        br_table(program, stack, labels, *last);
        return move_of(stack, function, Did::Went);
    }
    Progress::NotAttempted
}
