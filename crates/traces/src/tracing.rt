//! Traces of runs.
ghost use Rattle.std.specs.Prelude.{◌≡◌, ◌≤◌, ◌<◌, ◌++◌, ℕ, List, Option, [], Some, None, IfErr, IfOk, OnErr, OnOk, option_to_list};
ghost use Rattle.w_outside.specs.Outside.{Grew, GrewByFront, HasCause, Rose};
ghost use Rattle.w_reduce.specs.Program.{Program};
ghost use Rattle.w_reduce.specs.Store.{Store};
ghost use Rattle.w_reduce.specs.Terms.{Term};
ghost use Rattle.w_trace.specs.declared.line.Line.TheVariants as line;
ghost use Rattle.w_trace.specs.Events.{Events};
ghost use Rattle.w_trace.specs.Lines.{line_bytes};
ghost use Rattle.w_trace.specs.Traces.{trace_of};
ghost use Rattle.w_machine.specs.Beginning.{Begins};
ghost use Rattle.w_machine.specs.Position.{most_reductions};
ghost use Rattle.replies.specs.Answer.{TraceGives, traced};
ghost use Rattle.runs.specs.Leaving.{Leaves};
ghost use Rattle.runs.specs.Running.{IsAfter, IsFirst};
ghost use Rattle.traces.specs.Stepping.{GoesOn};
ghost use Rattle.traces.specs.Tracing.{IsBegunTrace, IsTraced, IsWritten, StopsTrace, event_lines};

use crate::stepping::{ending_of, go_to_event};
use replies::{Origin, Output, Stop};
use runs::begin_run;
use std::alloc::Global;
use w_machine::Machine;
use w_outside::{Fault, Sink, SureSink, put};
use w_rules::Checked;
use w_trace::{Ending, Event, put_end, put_event};

/// Where so many bytes are kept they are written, since a call for each event would take longer than the run.
const ENOUGH: usize = 32_768;

// Writes what is kept.
fn write_kept<O: Sink>(kept: &mut SureSink, out: &mut O) -> Result<(), Fault>
    ensures ok { OnOk result ((text : List ℕ) (before : Option (List ℕ)) → IsWritten text before (O.held out.old) (⟦<SureSink as Sink>⟧.held kept.old)
        → Grew before (O.held out.new) text × (⟦<SureSink as Sink>⟧.held kept.new ≡ Some [])) }
    ensures err { OnErr result ((text : List ℕ) (before : Option (List ℕ)) → IsWritten text before (O.held out.old) (⟦<SureSink as Sink>⟧.held kept.old)
        → GrewByFront before (O.held out.new) text) }
    ensures cause { HasCause (O.faults out.old) (O.faults out.new) result }
{
    put(out, kept.held())?;
    kept.clear();
    Ok(())
}

// Writes what is kept where it is enough.
fn write_enough<O: Sink>(kept: &mut SureSink, out: &mut O) -> Result<(), Fault>
    ensures ok { OnOk result ((text : List ℕ) (before : Option (List ℕ)) → IsWritten text before (O.held out.old) (⟦<SureSink as Sink>⟧.held kept.old)
        → IsWritten text before (O.held out.new) (⟦<SureSink as Sink>⟧.held kept.new)) }
    ensures err { OnErr result ((text : List ℕ) (before : Option (List ℕ)) → IsWritten text before (O.held out.old) (⟦<SureSink as Sink>⟧.held kept.old)
        → GrewByFront before (O.held out.new) text) }
    ensures cause { HasCause (O.faults out.old) (O.faults out.new) result }
{
    if kept.held().len() < ENOUGH {
        return Ok(());
    }
    write_kept(kept, out)
}

// Why there is no output, where a sink fails.
fn stop_of(fault: Fault) -> Stop
    ensures failed { fault ≡ Fault.Failed → result ≡ Stop.WriteFault }
    ensures memory { fault ≡ Fault.OutOfMemory → result ≡ Stop.OutOfMemory }
{
    match fault {
        Fault::Failed => Stop::WriteFault,
        Fault::OutOfMemory => Stop::OutOfMemory,
    }
}

// Keeps an event, and writes what is kept where it is enough.
fn keep_event<O: Sink>(event: &Event, kept: &mut SureSink, out: &mut O) -> Result<(), Fault>
    ensures ok { OnOk result ((text : List ℕ) (before : Option (List ℕ)) → IsWritten text before (O.held out.old) (⟦<SureSink as Sink>⟧.held kept.old)
        → IsWritten (text ++ line_bytes (line.Event event.now)) before (O.held out.new) (⟦<SureSink as Sink>⟧.held kept.new)) }
    ensures err { OnErr result ((text : List ℕ) (before : Option (List ℕ)) → IsWritten text before (O.held out.old) (⟦<SureSink as Sink>⟧.held kept.old)
        → GrewByFront before (O.held out.new) (text ++ line_bytes (line.Event event.now))) }
    ensures cause { HasCause (O.faults out.old) (O.faults out.new) result }
{
    put_event(event, kept)?;
    write_enough(kept, out)
}

// The same of an event that may have come.
fn keep_if_some<O: Sink>(
    event: Option<Event>,
    kept: &mut SureSink,
    out: &mut O,
) -> Result<(), Fault>
    ensures ok { OnOk result ((text : List ℕ) (before : Option (List ℕ)) → IsWritten text before (O.held out.old) (⟦<SureSink as Sink>⟧.held kept.old)
        → IsWritten (text ++ event_lines (option_to_list event)) before (O.held out.new) (⟦<SureSink as Sink>⟧.held kept.new)) }
    ensures err { OnErr result ((text : List ℕ) (before : Option (List ℕ)) → IsWritten text before (O.held out.old) (⟦<SureSink as Sink>⟧.held kept.old)
        → GrewByFront before (O.held out.new) (text ++ event_lines (option_to_list event))) }
    ensures cause { HasCause (O.faults out.old) (O.faults out.new) result }
{
    match event {
        Some(event) => keep_event(&event, kept, out),
        None => Ok(()),
    }
}

// Runs a machine that isn't stopped up to its next event, or until it has taken so many reductions, and keeps the event. `false`: it is
// stopped now.
fn trace_event<O: Sink>(
    machine: &mut Machine,
    steps: u64,
    kept: &mut SureSink,
    out: &mut O,
) -> Result<bool, Stop>
    requires within { steps ≤ most_reductions }
    requires fewer { machine.old.taken < steps }
    requires none { machine.old.stop ≡ None }
    ensures ok { IfOk result (λ goes. (p : Program) (s : Store) (t : Term) → Begins machine.old.origin p s t → (before : Option (List ℕ))
        → IsTraced p s t machine.old before (O.held out.old) (⟦<SureSink as Sink>⟧.held kept.old) → IsTraced p s t machine.new before (O.held out.new) (⟦<SureSink as Sink>⟧.held kept.new)) }
    ensures goes { IfOk result (λ goes. GoesOn goes steps machine.old machine.new) }
    ensures err { IfErr result (λ stop. StopsTrace stop (Rose (O.faults out.old) (O.faults out.new)) ((p : Program) (s : Store) (t : Term) → Begins machine.old.origin p s t → (before : Option (List ℕ))
        → IsTraced p s t machine.old before (O.held out.old) (⟦<SureSink as Sink>⟧.held kept.old) → GrewByFront before (O.held out.new) (event_lines (Events p s t steps)))) }
    ensures origin { machine.new.origin ≡ machine.old.origin }
    ensures later { O.faults out.old ≤ O.faults out.new }
{
    let (goes, event) = go_to_event(machine, steps)?;
    match keep_if_some(event, kept, out) {
        Ok(()) => Ok(goes),
        Err(fault) => Err(stop_of(fault)),
    }
}

// Takes so many reductions at most of a machine that has taken none, and keeps their events.
fn trace_steps<O: Sink>(
    machine: &mut Machine,
    steps: u64,
    kept: &mut SureSink,
    out: &mut O,
) -> Result<(), Stop>
    requires within { steps ≤ most_reductions }
    requires first { IsFirst machine.old }
    requires none { ⟦<SureSink as Sink>⟧.held kept.old ≡ Some [] }
    ensures ok { OnOk result ((p : Program) (s : Store) (t : Term) → Begins machine.old.origin p s t → IsTraced p s t machine.new (O.held out.old) (O.held out.new) (⟦<SureSink as Sink>⟧.held kept.new)) }
    ensures after { OnOk result (IsAfter machine.new steps) }
    ensures err { IfErr result (λ stop. StopsTrace stop (Rose (O.faults out.old) (O.faults out.new)) ((p : Program) (s : Store) (t : Term) → Begins machine.old.origin p s t
        → IsBegunTrace p s t steps (O.held out.old) (O.held out.new))) }
    ensures origin { machine.new.origin ≡ machine.old.origin }
    ensures later { O.faults out.old ≤ O.faults out.new }
{
    while machine.taken() < steps {
        if !trace_event(machine, steps, kept, out)? {
            return Ok(());
        }
    }
    Ok(())
}

// Writes what is kept, and the last line of a trace.
fn write_end<O: Sink>(
    taken: u64,
    ending: Ending,
    kept: &mut SureSink,
    out: &mut O,
) -> Result<(), Fault>
    ensures ok { OnOk result ((text : List ℕ) (before : Option (List ℕ)) → IsWritten text before (O.held out.old) (⟦<SureSink as Sink>⟧.held kept.old)
        → Grew before (O.held out.new) (text ++ line_bytes (line.End taken ending))) }
    ensures err { OnErr result ((text : List ℕ) (before : Option (List ℕ)) → IsWritten text before (O.held out.old) (⟦<SureSink as Sink>⟧.held kept.old)
        → GrewByFront before (O.held out.new) (text ++ line_bytes (line.End taken ending))) }
    ensures cause { HasCause (O.faults out.old) (O.faults out.new) result }
{
    put_end(taken, ending, kept)?;
    write_kept(kept, out)
}

// Writes the trace of the run of a machine that has taken no reduction. Nothing is left to write.
fn trace_machine<O: Sink>(
    alloc: Global,
    machine: &mut Machine,
    steps: u64,
    out: &mut O,
) -> Result<Output, Stop>
    requires within { steps ≤ most_reductions }
    requires first { IsFirst machine.old }
    ensures leaves { (p : Program) (s : Store) (t : Term) → Begins machine.old.origin p s t
        → Leaves (λ reply. reply ≡ traced (trace_of p s t steps)) result
        (Grew (O.held out.old) (O.held out.new)) (Rose (O.faults out.old) (O.faults out.new)) }
    ensures later { O.faults out.old ≤ O.faults out.new }
{
    let mut kept = SureSink::new(alloc)?;
    trace_steps(machine, steps, &mut kept, out)?;
    let ending = ending_of(machine);
    match write_end(machine.taken(), ending, &mut kept, out) {
        Ok(()) => Ok(Output::empty(alloc)),
        Err(fault) => Err(stop_of(fault)),
    }
}

/// Writes the trace of the run of a module, where it has a run; the answer is what is left to write.
pub fn trace<O: Sink>(
    alloc: Global,
    checked: Checked,
    steps: u64,
    out: &mut O,
) -> Result<Output, Stop>
    requires { steps ≤ most_reductions }
    ensures leaves { Leaves (TraceGives steps checked) result
        (Grew (O.held out.old) (O.held out.new)) (Rose (O.faults out.old) (O.faults out.new)) }
    ensures later { O.faults out.old ≤ O.faults out.new }
{
    let mut machine = begin_run(alloc, Origin::Module, checked)?;
    let answer = trace_machine(alloc, &mut machine, steps, out);
    drop(machine);
    answer
}
