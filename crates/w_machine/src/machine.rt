//! The machine.
ghost use Rattle.std.specs.Prelude.{◌≡◌, ◌≢◌, ◌+◌, ◌<◌, ◌≤◌, ℕ, true, false, [], length, All, Some, None, is_some, IfOk, OnOk};
ghost use Rattle.w_outside.specs.Outside.{Rose};
ghost use Rattle.w_reduce.specs.Store.{Store as TheStore, made, live, consumed};
ghost use Rattle.w_reduce.specs.Terms.{Term};
ghost use Rattle.w_reduce.specs.Program.{Program as TheProgram};
ghost use Rattle.w_reduce.specs.Run.{Run};
ghost use Rattle.w_rules.specs.Spaces.{functions_of};
ghost use Rattle.w_call_ops.specs.KnownFunctions.{AreFactsOf};
ghost use Rattle.w_stands.specs.Code.{AllShort};
ghost use Rattle.w_stands.specs.Values.{vals};
ghost use Rattle.w_reduce.specs.Start.{starts_of};
ghost use Rattle.w_trace.specs.Events.{with_step};
ghost use Rattle.w_machine.specs.Beginning.{origin_of, Begins, BeginsWith, BeginsAt};
ghost use Rattle.w_machine.specs.RunStop.{stopped_at, stopped_in};
ghost use Rattle.w_machine.specs.GoingOn.{Hastens};
ghost use Rattle.w_machine.specs.Position.{Steps, StopsWith, StopsIfEnded, Runs, counted, most_reductions};
ghost use Rattle.w_machine.specs.RunsToEvents.{Tells, RunsToEvent};
ghost use Rattle.w_machine.specs.Results.{HasResults};
ghost use Rattle.w_machine.specs.Reached.{AreFirst, RunsFirst, IsTurned, IsFresh, is_last};

use crate::outcome::{Outcome, Stepped, as_outcome, as_stepped, has_ended};
use std::alloc::{AllocError, Global};
use std::marker::Model;
use w_call_ops::{Callees, FunctionFacts, all_facts};
use w_chain::Chain;
use w_configuration::{Configuration, RunStop, Then, end_of, hasten, next_event, reduce};
use w_conts::ContStore;
use w_inst::Instance;
use w_outside::Sink;
use w_plain::KnownProgram;
use w_rules::{Checked, Runnable, Spaces};
use w_segment::{Segment, Stage};
use w_tables::Store;
use w_trace::{Event, EventKind};
use w_types::Value;

/// A run of a module. After so many steps it stands for the run of so many reductions.
#[derive(Drop)]
pub struct Machine {
    alloc: Global,
    runnable: Callees,
    /// The functions that run before main, in order, and main.
    starts: Vec<u32>,
    main: u32,
    /// The index of each function's type, imported functions in front.
    functions: Vec<u32>,
    configuration: Configuration,
    /// The segments of the functions that run later. The next one is last, and main's is first.
    waiting: Vec<Box<Segment>>,
    taken: u64,
    stop: Option<RunStop>,
    /// How many continuations were made, and weren't consumed, before what stopped it.
    made: u64,
    live: u64,
}

impl Model for Machine {
    ghost use Rattle.w_machine.specs.Position.{Position, position_code};
    ghost use Rattle.w_machine.specs.Reached.{IsReached};

    ghost Value = { Position };

    ghost coded = { position_code };

    ghost view = { λ a. record { origin = record { source = a.runnable; starts = a.starts.items; main = a.main }; taken = a.taken; stop = a.stop } };

    ghost invariant = { λ a. IsReached (record { source = a.runnable; starts = a.starts.items; main = a.main }) a.functions.items a.configuration a.waiting.items a.stop a.taken a.made a.live };
}

// What a machine keeps beside its module and what that was made of, before any reduction.
struct FirstParts {
    facts: Vec<FunctionFacts>,
    functions: Vec<u32>,
    chain: Chain,
    waiting: Vec<Box<Segment>>,
}

// The start function, where there is one.
fn start_list(alloc: Global, start: Option<u32>) -> Result<Vec<u32>, AllocError>
    ensures { IfOk result (λ starts. starts.items ≡ starts_of start) }
{
    let mut starts = Vec::new(alloc);
    if let Some(function) = start {
        starts.push(function)?;
    }
    Ok(starts)
}

// The segment that runs first, and those that wait: of the functions of `starts`, and of main.
fn first_segments(
    alloc: Global,
    starts: &[u32],
    main: u32,
) -> Result<(Box<Segment>, Vec<Box<Segment>>), AllocError>
    ensures { IfOk result (λ r. AreFirst starts.now main r.0 r.1.items) }
{
    let mut waiting = Vec::new(alloc);
    let mut next = Segment::fresh(alloc, main, 0)?;
    let mut left = starts.len();
    while left > 0 {
        left -= 1;
        waiting.push(next)?;
        next = Segment::fresh(alloc, starts[left], 0)?;
    }
    Ok((next, waiting))
}

// What runs first: what is known of each function, the index of each function's type, the segment that runs first alone, and those that
// wait. It fails where a body is too long, too.
fn first_parts(
    alloc: Global,
    program: &Runnable,
    starts: &[u32],
    main: u32,
) -> Result<FirstParts, AllocError>
    ensures short { OnOk result (AllShort program.now) }
    ensures facts { IfOk result (λ r. AreFactsOf program.now r.facts.items) }
    ensures functions { IfOk result (λ r. r.functions.items ≡ functions_of program.now) }
    ensures first { IfOk result (λ r. RunsFirst starts.now main r.chain r.waiting.items) }
{
    let facts = all_facts(alloc, program)?;
    let functions = Spaces::of_module(alloc, program.module())?.functions;
    let (segment, waiting) = first_segments(alloc, starts, main)?;
    let mut chain = Chain::new();
    chain.push(segment);
    Ok(FirstParts {
        facts,
        functions,
        chain,
        waiting,
    })
}

// Where the last segment is left, the next one of those that wait runs.
#[inline(always)]
fn turn(chain: &mut Chain, waiting: &mut Vec<Box<Segment>>)
    requires some { 0 < length chain.old }
    requires fresh { All IsFresh waiting.old.items }
    ensures stays { is_last chain.old ≡ false → (chain.new ≡ chain.old) × (waiting.new.items ≡ waiting.old.items) }
    ensures turns { is_last chain.old ≡ true → IsTurned waiting.old.items chain.old chain.new waiting.new.items }
{
    // mostly none waits, which is found sooner than where the last one stands
    if waiting.is_empty() {
        return;
    }
    if let Stage::Values = chain.stack().stage() {
        if chain.handles() == 0 {
            if let Some(next) = waiting.pop() {
                let _left = chain.pop();
                chain.push(next);
            }
        }
    }
}

// How many reductions an outcome counts that stops a machine.
fn count(stop: RunStop) -> u64
    ensures { result ≡ counted stop }
{
    match stop {
        RunStop::Limit(_) | RunStop::Trapped(_) => 1,
        _ => 0,
    }
}

// The event of the reduction with this number, where it has one.
fn numbered(step: u64, kind: Option<EventKind>) -> Option<Event>
    ensures { result ≡ with_step step kind }
{
    kind.map(|kind| Event { step, kind })
}

impl Machine {
    // The run of a module from its first store, with no reduction taken: the functions of `starts` run in order, and then main. What it is
    // given is let go in one place, since each such place is proved anew.
    fn begun(
        alloc: Global,
        runnable: Runnable,
        store: Store,
        starts: Vec<u32>,
        main: u32,
    ) -> Result<Machine, AllocError>
        requires { BeginsAt runnable store starts.items main }
        ensures { IfOk result (λ machine. machine ≡ record { origin = record { source = runnable; starts = starts.items; main = main }; taken = 0; stop = None }) }
    {
        // a module that runs is narrow
        let _module = runnable.module();
        match first_parts(alloc, &runnable, starts.as_slice(), main) {
            Ok(
                FirstParts {
                    facts,
                    functions,
                    chain,
                    waiting,
                },
            ) => Ok(Machine {
                alloc,
                runnable: Callees::make(runnable, facts),
                starts,
                main,
                functions,
                configuration: Configuration {
                    store,
                    chain,
                    conts: ContStore::new(alloc),
                },
                waiting,
                taken: 0,
                stop: None,
                made: 0,
                live: 0,
            }),
            Err(fault) => {
                drop(runnable);
                drop(store);
                drop(starts);
                Err(fault)
            }
        }
    }

    /// The run of a module from its first store, with no reduction taken. It fails only for want of memory, as where a body has 2^32
    /// instructions or more.
    pub fn new(alloc: Global, checked: Checked, instance: Instance) -> Result<Machine, AllocError>
        requires { BeginsWith checked instance.store instance.main }
        ensures { IfOk result (λ machine. machine ≡ record { origin = origin_of checked instance.main; taken = 0; stop = None }) }
    {
        let runnable = checked.into_runnable();
        let module = runnable.module();
        let _classes = runnable.classes();
        let starts = start_list(alloc, module.start)?;
        Machine::begun(alloc, runnable, instance.store, starts, instance.main)
    }

    /// The run of a module that was made of several files, from its first store, with no reduction taken: the functions of `starts` run
    /// in order, and then main. It fails only for want of memory, as where a body has 2^32 instructions or more.
    pub fn linked(
        alloc: Global,
        runnable: Runnable,
        store: Store,
        starts: Vec<u32>,
        main: u32,
    ) -> Result<Machine, AllocError>
        requires { BeginsAt runnable store starts.items main }
        ensures { IfOk result (λ machine. machine ≡ record { origin = record { source = runnable; starts = starts.items; main = main }; taken = 0; stop = None }) }
    {
        Machine::begun(alloc, runnable, store, starts, main)
    }

    /// How many reductions were taken.
    pub fn taken(&self) -> u64
        ensures value { result ≡ self.now.taken }
        // So many the run counts itself.
        ensures counts { (p : TheProgram) (s : TheStore) (t : Term) → Begins self.now.origin p s t → (Run p s t result).taken ≡ result }
        // Where something stopped it, that is what the run came to after so many.
        ensures stopped { (p : TheProgram) (s : TheStore) (t : Term) → Begins self.now.origin p s t
            → (k : RunStop) → self.now.stop ≡ Some k → StopsWith k (Run p s t result).outcome }
    {
        self.taken
    }

    /// How many continuations were made.
    pub fn made(&self) -> u64
        ensures value { (p : TheProgram) (s : TheStore) (t : Term) → Begins self.now.origin p s t → made (Run p s t self.now.taken).store ≡ result }
    {
        if self.stop.is_some() {
            self.made
        } else {
            self.configuration.conts.made()
        }
    }

    /// How many of them aren't consumed.
    pub fn live(&self) -> u64
        ensures value { (p : TheProgram) (s : TheStore) (t : Term) → Begins self.now.origin p s t → live (Run p s t self.now.taken).store ≡ result }
    {
        if self.stop.is_some() {
            self.live
        } else {
            self.configuration.conts.live()
        }
    }

    /// How many of them are.
    pub fn consumed(&self) -> u64
        ensures value { (p : TheProgram) (s : TheStore) (t : Term) → Begins self.now.origin p s t → consumed (Run p s t self.now.taken).store ≡ result }
    {
        if self.stop.is_some() {
            self.made - self.live
        } else {
            self.configuration.conts.consumed()
        }
    }

    // Takes one reduction, whatever it is, or keeps what stops it, and says whether it is stopped.
    #[inline(never)]
    fn advance_slowly<O: Sink>(&mut self, out: &mut O) -> bool
        requires { self.old.taken < most_reductions }
        ensures steps { Steps self.old self.new.stop self.new (O.held out.old) (O.held out.new) }
        ensures stops { result ≡ is_some self.new.stop }
        ensures cause { self.old.stop ≡ None → self.new.stop ≡ Some RunStop.WriteFault → Rose (O.faults out.old) (O.faults out.new) }
        ensures later { O.faults out.old ≤ O.faults out.new }
    {
        if self.stop.is_some() {
            return true;
        }
        let program = KnownProgram {
            source: self.runnable.module(),
            runnable: &self.runnable,
            functions: self.functions.as_slice(),
        };
        let _classes = self.runnable.classes();
        let conts = &self.configuration.conts;
        let (made, live) = (conts.made(), conts.live());
        let stopped = reduce(
            program,
            self.alloc,
            &mut self.configuration,
            out,
            &mut self.stop,
        );
        if !stopped {
            turn(&mut self.configuration.chain, &mut self.waiting);
            self.taken += 1;
            return false;
        }
        match self.stop {
            Some(stop) => {
                self.taken += count(stop);
                self.made = made;
                self.live = live;
                true
            }
            None => unreachable!(),
        }
    }

    // Takes reductions that print nothing, up to `end` in all, until another comes next or one of them stops the machine, and says whether
    // one did; quiet ones do nothing with continuations. What they run stands in a program once here, whatever its sinks.
    #[inline(never)]
    fn hasten_on(&mut self, end: u64, quiet: bool) -> bool
        requires few { end ≤ most_reductions }
        requires before { self.old.taken < end }
        requires none { self.old.stop ≡ None }
        ensures hastens { Hastens quiet result end self.old self.new }
    {
        let program = KnownProgram {
            source: self.runnable.module(),
            runnable: &self.runnable,
            functions: self.functions.as_slice(),
        };
        let _classes = self.runnable.classes();
        let most = end - self.taken;
        let done = hasten(program, self.alloc, &mut self.configuration, most, quiet);
        self.taken += done.taken;
        match done.then {
            Then::Stopped { stop, made, live } => {
                self.taken += count(stop);
                self.stop = Some(stop);
                self.made = made;
                self.live = live;
                true
            }
            Then::On | Then::Left => {
                if done.taken > 0 {
                    turn(&mut self.configuration.chain, &mut self.waiting);
                }
                false
            }
        }
    }

    // The same where the innermost segment may be fresh, so that a function is invoked, which isn't hastened through.
    #[inline(always)]
    fn hasten(&mut self, end: u64, quiet: bool) -> bool
        requires few { end ≤ most_reductions }
        requires before { self.old.taken < end }
        requires none { self.old.stop ≡ None }
        ensures hastens { Hastens quiet result end self.old self.new }
    {
        match self.configuration.chain.stack().stage() {
            Stage::Fresh => false,
            _ => self.hasten_on(end, quiet),
        }
    }

    // Takes one reduction of a machine that isn't stopped, or keeps what stops it, and says what the reduction does with continuations.
    fn advance_with_event<O: Sink>(&mut self, out: &mut O) -> Option<Event>
        requires few { self.old.taken < most_reductions }
        requires none { self.old.stop ≡ None }
        ensures steps { Steps self.old self.new.stop self.new (O.held out.old) (O.held out.new) }
        ensures event { Tells result self.old self.new }
        ensures cause { self.new.stop ≡ Some RunStop.WriteFault → Rose (O.faults out.old) (O.faults out.new) }
        ensures later { O.faults out.old ≤ O.faults out.new }
    {
        // the event is read off what comes next, before that is gone
        let _classes = self.runnable.classes();
        let kind = next_event(self.runnable.module(), &self.configuration);
        let step = self.taken + 1;
        self.advance_slowly(out);
        if self.stop.is_some() {
            return None;
        }
        numbered(step, kind)
    }

    // Says what stops the run, with no reduction taken.
    fn stop_if_ended(&mut self) -> Option<RunStop>
        requires { self.old.stop ≡ None }
        ensures { StopsIfEnded self.old result self.new }
    {
        // the run of a valid module is never stuck
        let _module = self.runnable.module();
        let stopped = end_of(&self.configuration.chain);
        if stopped.is_some() {
            self.stop = stopped;
            self.made = self.configuration.conts.made();
            self.live = self.configuration.conts.live();
        }
        stopped
    }

    // Takes so many reductions at most, or says what stops it.
    fn go<O: Sink>(&mut self, steps: u64, out: &mut O) -> Option<RunStop>
        requires { self.old.taken + steps ≤ most_reductions }
        ensures runs { Runs self.old steps result self.new (O.held out.old) (O.held out.new) }
        ensures cause { self.old.stop ≡ None → result ≡ Some RunStop.WriteFault → Rose (O.faults out.old) (O.faults out.new) }
        ensures later { O.faults out.old ≤ O.faults out.new }
    {
        if self.stop.is_some() {
            return self.stop;
        }
        let end = self.taken + steps;
        while self.taken < end {
            if self.hasten(end, false) {
                return self.stop;
            }
            if self.taken < end {
                if self.advance_slowly(out) {
                    return self.stop;
                }
            }
        }
        self.stop_if_ended()
    }

    // Takes so many reductions at most, up to the first that has an event, and tells it, or says what stops it.
    fn go_to_event<O: Sink>(&mut self, steps: u64, out: &mut O) -> (Option<RunStop>, Option<Event>)
        requires { self.old.taken + steps ≤ most_reductions }
        ensures runs { RunsToEvent steps result.0 result.1 self.old self.new (O.held out.old) (O.held out.new) }
        ensures cause { self.old.stop ≡ None → result.0 ≡ Some RunStop.WriteFault → Rose (O.faults out.old) (O.faults out.new) }
        ensures later { O.faults out.old ≤ O.faults out.new }
    {
        if self.stop.is_some() {
            return (self.stop, None);
        }
        let end = self.taken + steps;
        while self.taken < end {
            if self.hasten(end, true) {
                return (self.stop, None);
            }
            if self.taken < end {
                let event = self.advance_with_event(out);
                if self.stop.is_some() {
                    return (self.stop, event);
                }
                if event.is_some() {
                    return (self.stop_if_ended(), event);
                }
            }
        }
        (self.stop_if_ended(), None)
    }

    /// The values that the run ended with, in order; none before.
    pub fn results(&self) -> &[Value]
        ensures ended { self.now.stop ≡ Some RunStop.Ended → (p : TheProgram) (s : TheStore) (t : Term) → Begins self.now.origin p s t
            → (n : ℕ) → self.now.taken ≤ n → HasResults (Run p s t n).outcome (vals result.now) }
        ensures none { self.now.stop ≢ Some RunStop.Ended → result.now ≡ [] }
    {
        if has_ended(self.stop) {
            self.configuration.chain.stack().operands()
        } else {
            &[]
        }
    }

    /// Takes so many reductions at most. What they print goes into the sink.
    pub fn run<O: Sink>(&mut self, steps: u64, out: &mut O) -> Outcome
        requires { self.old.taken + steps ≤ most_reductions }
        ensures runs { Runs self.old steps (stopped_in result) self.new (O.held out.old) (O.held out.new) }
        ensures cause { self.old.stop ≡ None → result ≡ Outcome.WriteFault → Rose (O.faults out.old) (O.faults out.new) }
        ensures later { O.faults out.old ≤ O.faults out.new }
    {
        as_outcome(self.go(steps, out))
    }

    /// Takes one reduction, or says why none is taken, or that it traps or passes a limit. What it prints goes into the sink.
    pub fn step<O: Sink>(&mut self, out: &mut O) -> Stepped
        requires { self.old.taken < most_reductions }
        ensures steps { Steps self.old (stopped_at result) self.new (O.held out.old) (O.held out.new) }
        ensures cause { self.old.stop ≡ None → result ≡ Stepped.WriteFault → Rose (O.faults out.old) (O.faults out.new) }
        ensures later { O.faults out.old ≤ O.faults out.new }
    {
        self.advance_slowly(out);
        as_stepped(self.stop)
    }

    /// Takes reductions, so many at most, up to the first that does something with continuations, and says what that does. There is no
    /// event where none of them does anything with them, nor where one traps, passes a limit or isn't taken. What they print goes into
    /// the sink. `Outcome::Running` with no event: so many were taken.
    pub fn run_to_event<O: Sink>(&mut self, steps: u64, out: &mut O) -> (Outcome, Option<Event>)
        requires { self.old.taken + steps ≤ most_reductions }
        // It is a run of at most so many, in which no reduction but the last has an event.
        ensures runs { RunsToEvent steps (stopped_in result.0) result.1 self.old self.new (O.held out.old) (O.held out.new) }
        ensures cause { self.old.stop ≡ None → result.0 ≡ Outcome.WriteFault → Rose (O.faults out.old) (O.faults out.new) }
        ensures later { O.faults out.old ≤ O.faults out.new }
    {
        let (stop, event) = self.go_to_event(steps, out);
        (as_outcome(stop), event)
    }
}
