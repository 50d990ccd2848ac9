//! Entering a function of the module (Core, execution, function calls).
ghost use Rattle.std.specs.Prelude.{◌≡◌, ◌+◌, ◌<◌, ◌≤◌, length, drop, OnErr, OnOk};
ghost use Rattle.w_syntax.specs.Functions.{code_of_function};
ghost use Rattle.w_syntax.specs.Locals.{total};
ghost use Rattle.w_segment.specs.Shape.{frames_of, locals_all};
ghost use Rattle.w_segment.specs.Changes.{with_more};
ghost use Rattle.w_stands.specs.Keeps.{Keeps};
ghost use Rattle.w_stands.specs.Room.{Roomier};
ghost use Rattle.w_types.specs.declared.types.FuncType.{FuncType as FuncKind};
ghost use Rattle.w_syntax.specs.declared.module.Func.{Func as FuncCode};
ghost use Rattle.w_call_ops.specs.Entering.{CanEnter, HasFrameRoom, IsEntered, IsFunction, first_values};
ghost use Rattle.w_call_ops.specs.KnownFunctions.{AreOf, FrameFits};

use crate::known_functions::{Callees, FunctionFacts};
use std::alloc::AllocError;
use w_segment::{Entry, Stack};
use w_syntax::{LocalRun, Module};
use w_types::Value;

// Adds the locals of these runs, as they begin, to the innermost frame.
#[inline(always)]
fn add_runs(stack: &mut Stack, runs: &[LocalRun])
    requires frame { 0 < frames_of stack.old.levels }
    requires room { locals_all stack.old.levels + total runs.now ≤ stack.old.capacity.locals }
    ensures after { stack.new ≡ with_more (first_values runs.now) stack.old }
{
    for run in runs {
        stack.add_locals(run.count, Value::default_of(run.kind));
    }
}

// Adds the locals that a function of the module declares, as they begin, to the innermost frame.
#[inline(always)]
fn add_declared(program: &Module, stack: &mut Stack, function: u32)
    requires there { (f : FuncCode) × (code_of_function program.now function ≡ Some f) }
    requires frame { 0 < frames_of stack.old.levels }
    requires room { (f : FuncCode) → code_of_function program.now function ≡ Some f
        → locals_all stack.old.levels + total f.locals ≤ stack.old.capacity.locals }
    ensures after { (f : FuncCode) → code_of_function program.now function ≡ Some f
        → stack.new ≡ with_more (first_values f.locals) stack.old }
{
    let code = &program.codes.as_slice()[function as usize];
    add_runs(stack, code.locals.as_slice());
}

// The same, where so many are declared. Mostly none is, and then the code isn't looked up.
#[inline(always)]
fn add_some_declared(program: &Callees, stack: &mut Stack, function: u32, locals: u64)
    requires there { (f : FuncCode) × (code_of_function program.now function ≡ Some f) × (locals ≡ total f.locals) }
    requires frame { 0 < frames_of stack.old.levels }
    requires room { locals_all stack.old.levels + locals ≤ stack.old.capacity.locals }
    ensures after { (f : FuncCode) → code_of_function program.now function ≡ Some f
        → stack.new ≡ with_more (first_values f.locals) stack.old }
{
    if locals > 0 {
        add_declared(program.module(), stack, function);
    }
}

/// Takes room for the frame of a function, with all that the function needs, where there is none and more may be asked for. It fails only
/// when out of memory, or where there is no room and none may be asked for.
#[inline(always)]
pub fn room_for_callee(
    stack: &mut Stack,
    facts: FunctionFacts,
    may_grow: bool,
) -> Result<(), AllocError>
    ensures roomier { Roomier stack.old stack.new }
    ensures ok { OnOk result (FrameFits facts stack.new) }
{
    let (operands, levels) = (facts.height as usize, facts.depth as usize + 1);
    // no stack has room for more locals than can be counted
    let Some(locals) = (facts.params as usize).checked_add(facts.locals as usize) else {
        return Err(AllocError);
    };
    if stack.fits(operands, levels, locals) {
        return Ok(());
    }
    if !may_grow {
        return Err(AllocError);
    }
    stack.reserve(operands, levels, locals)
}

/// Enters a function of the module, of which this is known, where its arguments are the topmost operands and there is room for its
/// frame; the function that ran before goes on at the stack's place.
#[inline(always)]
pub fn enter_callee(program: &Callees, stack: &mut Stack, function: u32, facts: FunctionFacts)
    requires there { (t : FuncKind) × (f : FuncCode) × IsFunction program.now function t f }
    requires facts { AreOf program.now function facts }
    requires given { facts.params ≤ length stack.old.operands }
    requires fits { FrameFits facts stack.old }
    ensures room { HasFrameRoom program.now function stack.old stack.new }
    ensures after { IsEntered program.now function stack.old.place stack.old.operands stack.old stack.new }
    ensures keeps { Keeps stack.old stack.new }
{
    let (params, arity) = (facts.params, facts.results);
    stack.enter(Entry::Frame {
        func: function,
        params,
        locals: params,
        arity,
    });
    add_some_declared(program, stack, function, facts.locals);
    stack.enter(Entry::Label {
        params: 0,
        arity,
        target: facts.end,
    });
}

/// Enters a function of the module, by its index among the module's own, once so many operands are gone; its arguments stand beneath
/// them. The function that ran before goes on at `back`. The frame gets room for all that its function needs. It fails only when out of
/// memory, or where there is no room and none may be asked for, and then the stack is as it was but for room.
#[inline(always)]
pub(crate) fn enter(
    program: &Callees,
    stack: &mut Stack,
    function: u32,
    popped: usize,
    back: u32,
    may_grow: bool,
) -> Result<(), AllocError>
    requires popped { popped ≤ length stack.old.operands }
    requires there { CanEnter program.now function (drop popped stack.old.operands) }
    ensures room { OnOk result (HasFrameRoom program.now function stack.old stack.new) }
    ensures after { OnOk result (IsEntered program.now function back (drop popped stack.old.operands) stack.old stack.new) }
    ensures keeps { OnOk result (Keeps stack.old stack.new) }
    ensures err { OnErr result (Roomier stack.old stack.new) }
{
    let facts = program.facts(function);
    room_for_callee(stack, facts, may_grow)?;
    stack.discard(popped);
    stack.go(back);
    enter_callee(program, stack, function, facts);
    Ok(())
}
