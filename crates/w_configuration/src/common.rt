//! Common reductions, one after another, before any other is looked at.
ghost use Rattle.std.specs.Prelude.{◌≡◌, ◌≢◌, ◌+◌, ◌<◌, ◌≤◌, ◌^◌, nat_le, false, List, length, option_map, slice_get};
ghost use Rattle.w_segment.specs.declared.entry.Stage.TheVariants.{Body};
ghost use Rattle.w_segment.specs.Link.{Link, top, with_top};
ghost use Rattle.w_chain.specs.Counts.{frames_in_all};
ghost use Rattle.w_reduce.specs.Limits.{most_frames};
ghost use Rattle.w_conts.specs.Conts.{Conts};
ghost use Rattle.w_stands.specs.Code.{instrs};
ghost use Rattle.w_stands.specs.Steps.{Stays};
ghost use Rattle.w_switching.specs.declared.stored.Stored.{Stored as TheStored};
ghost use Rattle.w_syntax.specs.Packed.{unpacked, unpacked_all};
ghost use Rattle.w_plain.specs.declared.progress.Progress.TheVariants as progress;
ghost use Rattle.w_configuration.specs.Parts.{parts};
ghost use Rattle.w_configuration.specs.Standing.{StandsSomewhere};
ghost use Rattle.w_configuration.specs.CommonReductions.{AttemptsOne, HastensParts, IsInRun, RunsIn, RunsInBody, TakesAtMost, within_frames};

use crate::configuration::Configuration;
use crate::hastened::{Hastened, Then};
use crate::reduction::{MOST_FRAMES, leave_handle, switches, switching_at};
use crate::stop::RunStop;
use std::alloc::Global;
use w_call_ops::Callees;
use w_plain::{KnownProgram, Progress, attempt, branch_of_suspend};
use w_reduce::RunLimit;
use w_segment::{Stack, Stage};
use w_syntax::{Module, PackedInstr};
use w_tables::Store;

// The instructions of a function of the module, with the end behind them; none where it has no function of this index.
#[inline(always)]
fn instrs_of(program: &Module, function: u32) -> &[PackedInstr]
    ensures { unpacked_all result.now ≡ instrs program.now function }
{
    match program.codes.as_slice().get(function as usize) {
        Some(code) => code.body.instrs(),
        None => &[],
    }
}

// The one at a place of these, or `None` behind the last one.
#[inline(always)]
fn instr_in(code: &[PackedInstr], place: u32) -> Option<&PackedInstr>
    ensures { option_map (λ p. unpacked p.now) result ≡ slice_get (unpacked_all code.now) place }
{
    code.get(place as usize)
}

// Attempts reductions in the body where a stack stands, so many at most, as long as the stack stays in it, and says how many were taken so
// and what the last attempt came to: `Went` where so many were. `code` has the instructions of the body.
#[inline(always)]
fn run_in_body(
    program: &Callees,
    code: &[PackedInstr],
    store: &mut Store,
    stack: &mut Stack,
    most: u64,
) -> (u64, Progress)
    requires body { stack.old.stage ≡ Body }
    requires stands { RunsIn program.now store.old stack.old }
    requires code { unpacked_all code.now ≡ instrs program.now stack.old.func }
    ensures runs { (chain : List Link) (conts : Conts TheStored) → 0 < length chain → StandsSomewhere program.now (parts store.old (with_top stack.old chain) conts)
        → RunsInBody result.1 result.0 program.now (parts store.old (with_top stack.old chain) conts) (parts store.new (with_top stack.new chain) conts) }
    ensures most { result.0 ≤ most }
    ensures fewer { result.1 ≢ progress.Went → result.0 < most }
    ensures all { result.1 ≡ progress.Went → result.0 ≡ most }
    ensures stays { result.1 ≡ progress.NotAttempted → Stays stack.old stack.new }
{
    // a module that runs is sound
    let _module = program.module();
    let mut taken = 0;
    while taken < most {
        match attempt(program, store, stack, instr_in(code, stack.place())) {
            Progress::Went => taken += 1,
            other => return (taken, other),
        }
    }
    (taken, Progress::Went)
}

// One more than so many was taken, or what stopped the run, where the result has more frames than the limit.
#[inline(always)]
fn within_frames(configuration: &Configuration, taken: u64) -> Hastened
    requires few { taken < 2 ^ 40 }
    ensures { result ≡ within_frames (nat_le (frames_in_all configuration.now.chain) most_frames) taken configuration.now.conts }
{
    if configuration.chain.frames() <= MOST_FRAMES {
        return Hastened {
            taken: taken + 1,
            then: Then::On,
        };
    }
    Hastened {
        taken,
        then: Then::Stopped {
            stop: RunStop::Limit(RunLimit::Frames),
            made: configuration.conts.made(),
            live: configuration.conts.live(),
        },
    }
}

// Takes the reduction at an instruction that switches stacks, behind so many others.
#[inline(always)]
fn switch_there(
    program: KnownProgram,
    alloc: Global,
    configuration: &mut Configuration,
    code: &[PackedInstr],
    taken: u64,
) -> Hastened
    requires stands { StandsSomewhere program.source.now configuration.old }
    requires made { length configuration.old.conts.entries < 2 ^ 40 }
    requires few { taken < 2 ^ 40 }
    requires body { (top configuration.old.chain).shape.stage ≡ Body }
    requires code { unpacked_all code.now ≡ instrs program.source.now (top configuration.old.chain).shape.func }
    ensures { AttemptsOne result.then false taken result.taken program.entry.source.now configuration.old configuration.new }
{
    let found = instr_in(code, configuration.chain.stack().place());
    if !switches(found) {
        return Hastened {
            taken,
            then: Then::Left,
        };
    }
    let (made, live) = (configuration.conts.made(), configuration.conts.live());
    let mut stop = None;
    switching_at(program, alloc, configuration, found, &mut stop);
    match stop {
        Some(stop) => Hastened {
            taken,
            then: Then::Stopped { stop, made, live },
        },
        None => Hastened {
            taken: taken + 1,
            then: Then::On,
        },
    }
}

// Takes reductions in the body where the innermost segment stands, so many at most, as long as it stays in it, and the one behind these.
#[inline(always)]
fn go_on_in_body(
    program: KnownProgram,
    alloc: Global,
    configuration: &mut Configuration,
    code: &[PackedInstr],
    most: u64,
    quiet: bool,
) -> Hastened
    requires stands { StandsSomewhere program.source.now configuration.old }
    requires made { length configuration.old.conts.entries + most ≤ 2 ^ 40 }
    requires body { (top configuration.old.chain).shape.stage ≡ Body }
    requires code { unpacked_all code.now ≡ instrs program.source.now (top configuration.old.chain).shape.func }
    ensures hastens { HastensParts quiet result program.entry.source.now configuration.old configuration.new }
    ensures most { TakesAtMost result.then result.taken most }
{
    let (taken, last) = run_in_body(
        program.runnable,
        code,
        &mut configuration.store,
        configuration.chain.stack_mut(),
        most,
    );
    match last {
        Progress::Went => Hastened {
            taken,
            then: Then::On,
        },
        Progress::Moved => Hastened {
            taken: taken + 1,
            then: Then::On,
        },
        // but for a call no frame is added, so that the limit still holds
        Progress::Entered => within_frames(configuration, taken),
        Progress::NotAttempted if !quiet => switch_there(
            program,
            alloc,
            configuration,
            code,
            taken,
        ),
        Progress::Trapped | Progress::NotAttempted | Progress::NoRoom => Hastened {
            taken,
            then: Then::Left,
        },
    }
}

// Takes the reduction where the innermost segment stands in no body: the branch that a caught suspend left, or the exit of a handle.
#[inline(always)]
fn go_on_elsewhere(
    program: KnownProgram,
    configuration: &mut Configuration,
    quiet: bool,
) -> Hastened
    requires some { 0 < length configuration.old.chain }
    requires stands { IsInRun configuration.old.chain → StandsSomewhere program.source.now configuration.old }
    requires elsewhere { (top configuration.old.chain).shape.stage ≢ Body }
    ensures { AttemptsOne result.then quiet 0 result.taken program.entry.source.now configuration.old configuration.new }
{
    // a module that runs is sound
    let _module = program.runnable.module();
    match configuration.chain.stack().stage() {
        Stage::Branch(label) if !quiet => {
            let stack = configuration.chain.stack_mut();
            branch_of_suspend(program.source, &mut configuration.store, stack, label);
            within_frames(configuration, 0)
        }
        Stage::Values if !quiet && configuration.chain.handles() > 0 => {
            leave_handle(program, configuration);
            Hastened {
                taken: 1,
                then: Then::On,
            }
        }
        _ => Hastened {
            taken: 0,
            then: Then::Left,
        },
    }
}

// Takes some reductions, so many at most, wherever the innermost segment stands. `code` is that of its function.
#[inline(always)]
fn go_on(
    program: KnownProgram,
    alloc: Global,
    configuration: &mut Configuration,
    code: &[PackedInstr],
    most: u64,
    quiet: bool,
) -> Hastened
    requires some { 0 < length configuration.old.chain }
    requires stands { IsInRun configuration.old.chain → StandsSomewhere program.source.now configuration.old }
    requires made { length configuration.old.conts.entries + most ≤ 2 ^ 40 }
    requires more { 0 < most }
    requires code { unpacked_all code.now ≡ instrs program.source.now (top configuration.old.chain).shape.func }
    ensures hastens { HastensParts quiet result program.entry.source.now configuration.old configuration.new }
    ensures most { TakesAtMost result.then result.taken most }
{
    match configuration.chain.stack().stage() {
        Stage::Body => go_on_in_body(program, alloc, configuration, code, most, quiet),
        _ => go_on_elsewhere(program, configuration, quiet),
    }
}

/// Takes reductions that print nothing, so many at most, until one comes next that is taken by `reduce` alone, or the run is stopped. Where
/// they are to be quiet, these are only common ones in a body, none of which does anything with continuations.
#[inline(always)]
pub fn hasten(
    program: KnownProgram,
    alloc: Global,
    configuration: &mut Configuration,
    most: u64,
    quiet: bool,
) -> Hastened
    requires stands { StandsSomewhere program.source.now configuration.old }
    requires made { length configuration.old.conts.entries + most ≤ 2 ^ 40 }
    ensures hastens { HastensParts quiet result program.entry.source.now configuration.old configuration.new }
    ensures most { TakesAtMost result.then result.taken most }
{
    // a module that runs is sound
    let _module = program.runnable.module();
    let mut taken = 0;
    // the code is looked up where another function runs
    let mut function = configuration.chain.stack().func();
    let mut code = instrs_of(program.source, function);
    while taken < most {
        let runs = configuration.chain.stack().func();
        if runs != function {
            function = runs;
            code = instrs_of(program.source, function);
        }
        let done = go_on(program, alloc, configuration, code, most - taken, quiet);
        taken += done.taken;
        match done.then {
            Then::On => {}
            then => return Hastened { taken, then },
        }
    }
    Hastened {
        taken,
        then: Then::On,
    }
}
