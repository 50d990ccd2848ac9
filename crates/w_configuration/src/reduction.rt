//! One reduction of a run, with its limits.
ghost use Rattle.std.specs.Prelude.{◌≡◌, ◌≢◌, ◌-◌, ◌<◌, ◌≤◌, ◌^◌, ℕ, true, nat_le, List, length, Option, Some, None, is_some, option_map, IfOk, OnErr};
ghost use Rattle.w_syntax.specs.Packed.{unpacked};
ghost use Rattle.w_syntax.specs.declared.instructions.Instr.TheVariants as flat;
ghost use Rattle.w_syntax.specs.declared.instructions.Op.TheVariants as op;
ghost use Rattle.w_outside.specs.Outside.{Rose};
ghost use Rattle.w_segment.specs.declared.entry.Stage.TheVariants.{Body, Values};
ghost use Rattle.w_segment.specs.Link.{top};
ghost use Rattle.w_chain.specs.Counts.{frames_in_all};
ghost use Rattle.w_conts.specs.Conts.{live_of, KeepsReferences};
ghost use Rattle.w_stands.specs.Code.{instr_of};
ghost use Rattle.w_plain.specs.Plainness.{switches_at};
ghost use Rattle.w_switching.specs.Reductions.{SwitchesAt, Switches};
ghost use Rattle.w_switching.specs.Sound.{Sound, Roomy, most_segments};
ghost use Rattle.w_reduce.specs.Room.{takes_memory};
ghost use Rattle.w_reduce.specs.Limits.{most_frames, most_handles, most_conts, first_passed};
ghost use Rattle.w_configuration.specs.Standing.{StandsSomewhere};
ghost use Rattle.w_configuration.specs.Reducing.{PartsReduce, TakesEnough, IsPlainAt, end_at, stop_by, switching_stop_by};

use crate::configuration::Configuration;
use crate::stop::RunStop;
use std::alloc::{AllocError, Global};
use w_chain::Chain;
use w_conts::ContStore;
use w_outside::Sink;
use w_plain::{KnownProgram, Stop, instr_at, plain};
use w_reduce::RunLimit;
use w_segment::Stage;
use w_stands::Did;
use w_switching::{Stored, cont_bind, cont_new, exit_handle, resume, suspend, switch};
use w_syntax::{Instr, Module, Op, PackedInstr, SwitchingOp};

/// The most frames of a term.
pub(crate) const MOST_FRAMES: u64 = 20_000;
/// The most handles of a term.
const MOST_HANDLES: u64 = 1_000;
/// The most continuations that aren't consumed.
const MOST_CONTS: u64 = 65_536;

// The first limit that is passed.
fn passed(chain: &Chain, conts: &ContStore<Stored>) -> Option<RunLimit>
    ensures { result ≡ first_passed (nat_le (frames_in_all chain.now) most_frames) (nat_le (length chain.now - 1) most_handles) (nat_le (live_of conts.now) most_conts) }
{
    if chain.frames() > MOST_FRAMES {
        Some(RunLimit::Frames)
    } else if chain.handles() > MOST_HANDLES {
        Some(RunLimit::Handles)
    } else if conts.live() > MOST_CONTS {
        Some(RunLimit::Conts)
    } else {
        None
    }
}

/// Whether a run that stands here has ended: one segment is left, and that is values.
pub fn end_of(chain: &Chain) -> Option<RunStop>
    requires some { 0 < length chain.now }
    ensures { result ≡ end_at chain.now }
{
    match chain.stack().stage() {
        Stage::Values => {
            if chain.handles() == 0 {
                Some(RunStop::Ended)
            } else {
                None
            }
        }
        _ => None,
    }
}

// What a plain reduction that was taken, or wasn't, comes to, where its result has so many frames.
#[inline(always)]
fn stop_of(outcome: Result<Did, Stop>, frames: u64) -> Option<RunStop>
    ensures { result ≡ stop_by outcome frames }
{
    match outcome {
        Ok(Did::Went) => {
            if frames <= MOST_FRAMES {
                None
            } else {
                Some(RunStop::Limit(RunLimit::Frames))
            }
        }
        Ok(Did::Trapped(trap)) => Some(RunStop::Trapped(trap)),
        Err(Stop::WriteFault) => Some(RunStop::WriteFault),
        Err(Stop::OutOfMemory) => Some(RunStop::OutOfMemory),
    }
}

// The same of one that switches stacks, where its result passes this limit, if any.
fn switching_stop_of(outcome: Result<Did, AllocError>, limit: Option<RunLimit>) -> Option<RunStop>
    ensures { result ≡ switching_stop_by outcome limit }
{
    match outcome {
        Ok(Did::Went) => match limit {
            Some(name) => Some(RunStop::Limit(name)),
            None => None,
        },
        Ok(Did::Trapped(trap)) => Some(RunStop::Trapped(trap)),
        Err(_) => Some(RunStop::OutOfMemory),
    }
}

// Whether a plain reduction was taken, whose result has so many frames, and no limit is passed. It is asked first, so that what stops a run,
// which takes more than two words, is made only where something does.
#[inline(always)]
fn goes_on(outcome: Result<Did, Stop>, frames: u64) -> bool
    ensures { result ≡ true → stop_by outcome frames ≡ None }
{
    match outcome {
        Ok(Did::Went) => frames <= MOST_FRAMES,
        _ => false,
    }
}

// Sets what stops a run, if anything does, and says whether it does.
#[inline(always)]
fn set_stop(stopped: Option<RunStop>, stop: &mut Option<RunStop>) -> bool
    ensures stop { stop.new ≡ stopped }
    ensures stops { result ≡ is_some stopped }
{
    *stop = stopped;
    stopped.is_some()
}

// One reduction inside the innermost segment.
#[inline(always)]
fn plain_reduction<O: Sink>(
    program: KnownProgram,
    configuration: &mut Configuration,
    out: &mut O,
    found: Option<&PackedInstr>,
    stop: &mut Option<RunStop>,
) -> bool
    requires stands { StandsSomewhere program.source.now configuration.old }
    requires none { stop.old ≡ None }
    requires plain { IsPlainAt program.source.now (top configuration.old.chain).shape }
    requires found { (top configuration.old.chain).shape.stage ≡ Body → option_map (λ p. unpacked p.now) found ≡ instr_of program.source.now (top configuration.old.chain).shape.func (top configuration.old.chain).shape.place }
    ensures reduces { PartsReduce stop.new program.entry.source.now configuration.old configuration.new (O.held out.old) (O.held out.new) }
    ensures stops { result ≡ is_some stop.new }
    ensures cause { stop.new ≡ Some RunStop.WriteFault → Rose (O.faults out.old) (O.faults out.new) }
    ensures later { O.faults out.old ≤ O.faults out.new }
    ensures conts { configuration.new.conts ≡ configuration.old.conts }
{
    // a module that runs is sound
    let _module = program.runnable.module();
    let outcome = plain(
        program,
        &mut configuration.store,
        configuration.chain.stack_mut(),
        out,
        found,
    );
    let frames = configuration.chain.frames();
    if goes_on(outcome, frames) {
        return false;
    }
    set_stop(stop_of(outcome, frames), stop)
}

// One of the five instructions that switch stacks.
#[inline(always)]
fn switch_by(
    program: &Module,
    alloc: Global,
    chain: &mut Chain,
    conts: &mut ContStore<Stored>,
    operation: &SwitchingOp,
) -> Result<Did, AllocError>
    requires at { SwitchesAt operation.now program.now chain.old conts.old }
    requires sound { Sound chain.old conts.old }
    requires few { length chain.old ≤ most_segments }
    requires made { length conts.old.entries < 2 ^ 40 }
    requires takes { TakesEnough operation.now program.now chain.old conts.old }
    requires roomy { Roomy program.now chain.old conts.old }
    ensures goes { IfOk result (λ d. Switches d operation.now program.now chain.old conts.old chain.new conts.new) }
    ensures sound { Sound chain.new conts.new }
    ensures roomy { Roomy program.now chain.new conts.new }
    ensures references { KeepsReferences conts.old conts.new }
    ensures err_chain { OnErr result (chain.new ≡ chain.old) }
    ensures err_conts { OnErr result (conts.new ≡ conts.old) }
    ensures err_takes { OnErr result (takes_memory (op.Switching operation.now) ≡ true) }
{
    match operation {
        SwitchingOp::ContNew(kind) => cont_new(program, alloc, chain, conts, *kind),
        SwitchingOp::ContBind(from, to) => Ok(cont_bind(program, chain, conts, *from, *to)),
        SwitchingOp::Suspend(tag) => Ok(suspend(program, chain, conts, *tag)),
        SwitchingOp::Resume(kind, clauses) => {
            Ok(resume(program, chain, conts, *kind, clauses.as_slice()))
        }
        SwitchingOp::Switch(kind, tag) => Ok(switch(program, chain, conts, *kind, *tag)),
    }
}

// One reduction at an instruction that switches stacks.
#[inline(always)]
fn switching(
    program: KnownProgram,
    alloc: Global,
    configuration: &mut Configuration,
    operation: &SwitchingOp,
) -> Option<RunStop>
    requires stands { StandsSomewhere program.source.now configuration.old }
    requires made { length configuration.old.conts.entries < 2 ^ 40 }
    requires body { (top configuration.old.chain).shape.stage ≡ Body }
    requires here { instr_of program.source.now (top configuration.old.chain).shape.func (top configuration.old.chain).shape.place ≡ Some (flat.Plain (op.Switching operation.now)) }
    ensures reduces { (held : Option (List ℕ)) → PartsReduce result program.entry.source.now configuration.old configuration.new held held }
    ensures no_fault { result ≢ Some RunStop.WriteFault }
    ensures store { configuration.new.store ≡ configuration.old.store }
{
    // a module that runs is sound
    let _module = program.runnable.module();
    let outcome = switch_by(
        program.source,
        alloc,
        &mut configuration.chain,
        &mut configuration.conts,
        operation,
    );
    switching_stop_of(outcome, passed(&configuration.chain, &configuration.conts))
}

// The exit of a handle.
#[inline(never)]
pub(crate) fn leave_handle(program: KnownProgram, configuration: &mut Configuration)
    requires stands { StandsSomewhere program.source.now configuration.old }
    requires values { (top configuration.old.chain).shape.stage ≡ Values }
    requires two { 1 < length configuration.old.chain }
    ensures reduces { (held : Option (List ℕ)) → PartsReduce None program.entry.source.now configuration.old configuration.new held held }
    ensures store { configuration.new.store ≡ configuration.old.store }
{
    // a module that runs is sound
    let _module = program.runnable.module();
    exit_handle(&mut configuration.chain, &mut configuration.conts);
}

// Whether the instruction that was found switches stacks.
#[inline(always)]
pub(crate) fn switches(found: Option<&PackedInstr>) -> bool
    ensures { result ≡ switches_at (option_map (λ p. unpacked p.now) found.entry) }
{
    match found {
        Some(PackedInstr::Switching(_)) => true,
        Some(PackedInstr::Boxed(instruction)) => matches!(
            **instruction,
            Instr::Plain(Op::Switching(_))
        ),
        _ => false,
    }
}

// One reduction at an instruction that was found to switch stacks.
#[inline(never)]
pub(crate) fn switching_at(
    program: KnownProgram,
    alloc: Global,
    configuration: &mut Configuration,
    found: Option<&PackedInstr>,
    stop: &mut Option<RunStop>,
) -> bool
    requires stands { StandsSomewhere program.source.now configuration.old }
    requires made { length configuration.old.conts.entries < 2 ^ 40 }
    requires body { (top configuration.old.chain).shape.stage ≡ Body }
    requires found { option_map (λ p. unpacked p.now) found ≡ instr_of program.source.now (top configuration.old.chain).shape.func (top configuration.old.chain).shape.place }
    requires switches { switches_at (option_map (λ p. unpacked p.now) found) ≡ true }
    ensures reduces { (held : Option (List ℕ)) → PartsReduce stop.new program.entry.source.now configuration.old configuration.new held held }
    ensures stops { result ≡ is_some stop.new }
    ensures no_fault { stop.new ≢ Some RunStop.WriteFault }
    ensures store { configuration.new.store ≡ configuration.old.store }
{
    match found {
        Some(PackedInstr::Switching(operation)) => {
            let stopped = switching(program, alloc, configuration, &operation.whole());
            set_stop(stopped, stop)
        }
        Some(PackedInstr::Boxed(instruction)) => match &**instruction {
            Instr::Plain(Op::Switching(operation)) => {
                set_stop(switching(program, alloc, configuration, operation), stop)
            }
            _ => unreachable!(),
        },
        _ => unreachable!(),
    }
}

// One reduction in the body where the innermost segment stands.
#[inline(always)]
fn in_body<O: Sink>(
    program: KnownProgram,
    alloc: Global,
    configuration: &mut Configuration,
    out: &mut O,
    stop: &mut Option<RunStop>,
) -> bool
    requires stands { StandsSomewhere program.source.now configuration.old }
    requires none { stop.old ≡ None }
    requires made { length configuration.old.conts.entries < 2 ^ 40 }
    requires body { (top configuration.old.chain).shape.stage ≡ Body }
    ensures reduces { PartsReduce stop.new program.entry.source.now configuration.old configuration.new (O.held out.old) (O.held out.new) }
    ensures stops { result ≡ is_some stop.new }
    ensures cause { stop.new ≡ Some RunStop.WriteFault → Rose (O.faults out.old) (O.faults out.new) }
    ensures later { O.faults out.old ≤ O.faults out.new }
{
    let stack = configuration.chain.stack();
    let found = instr_at(program.source, stack.func(), stack.place());
    if switches(found) {
        switching_at(program, alloc, configuration, found, stop)
    } else {
        plain_reduction(program, configuration, out, found, stop)
    }
}

// One reduction where the innermost segment is fresh, or a branch comes next: in no body.
#[inline(never)]
fn before_code<O: Sink>(
    program: KnownProgram,
    configuration: &mut Configuration,
    out: &mut O,
    stop: &mut Option<RunStop>,
) -> bool
    requires stands { StandsSomewhere program.source.now configuration.old }
    requires none { stop.old ≡ None }
    requires code { (top configuration.old.chain).shape.stage ≢ Body }
    requires values { (top configuration.old.chain).shape.stage ≢ Values }
    ensures reduces { PartsReduce stop.new program.entry.source.now configuration.old configuration.new (O.held out.old) (O.held out.new) }
    ensures stops { result ≡ is_some stop.new }
    ensures cause { stop.new ≡ Some RunStop.WriteFault → Rose (O.faults out.old) (O.faults out.new) }
    ensures later { O.faults out.old ≤ O.faults out.new }
    ensures conts { configuration.new.conts ≡ configuration.old.conts }
{
    plain_reduction(program, configuration, out, None, stop)
}

/// Takes one reduction, or sets why none is taken, or that it traps or passes a limit, and says whether it does.
#[inline(always)]
pub fn reduce<O: Sink>(
    program: KnownProgram,
    alloc: Global,
    configuration: &mut Configuration,
    out: &mut O,
    stop: &mut Option<RunStop>,
) -> bool
    requires stands { StandsSomewhere program.source.now configuration.old }
    requires none { stop.old ≡ None }
    requires made { length configuration.old.conts.entries < 2 ^ 40 }
    ensures reduces { PartsReduce stop.new program.entry.source.now configuration.old configuration.new (O.held out.old) (O.held out.new) }
    ensures stops { result ≡ is_some stop.new }
    ensures cause { stop.new ≡ Some RunStop.WriteFault → Rose (O.faults out.old) (O.faults out.new) }
    ensures later { O.faults out.old ≤ O.faults out.new }
{
    match configuration.chain.stack().stage() {
        Stage::Body => in_body(program, alloc, configuration, out, stop),
        Stage::Fresh => before_code(program, configuration, out, stop),
        Stage::Branch(_) => before_code(program, configuration, out, stop),
        Stage::Values => {
            if configuration.chain.handles() == 0 {
                set_stop(Some(RunStop::Ended), stop)
            } else {
                leave_handle(program, configuration);
                set_stop(None, stop)
            }
        }
    }
}
