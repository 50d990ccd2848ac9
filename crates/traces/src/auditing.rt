//! Audits of traces.
ghost use Rattle.std.specs.Prelude.{◌≡◌, ◌≤◌, ℕ, List, IfOk, IfErr, OnOk};
ghost use Rattle.w_outside.specs.Outside.{Rose};
ghost use Rattle.w_syntax.specs.Spells.{Spells};
ghost use Rattle.w_rules.specs.Limits.{Within};
ghost use Rattle.w_rules.specs.Valid.{Valid};
ghost use Rattle.w_reduce.specs.Program.{Program};
ghost use Rattle.w_reduce.specs.Run.{Run};
ghost use Rattle.w_reduce.specs.Store.{Store};
ghost use Rattle.w_reduce.specs.Terms.{Term};
ghost use Rattle.w_trace.specs.Lines.{IsTextOf, IsWrongAt};
ghost use Rattle.w_trace.specs.Once.{IsOneShot, IsUnsoundAt, uses_of};
ghost use Rattle.w_trace.specs.Traces.{trace_of};
ghost use Rattle.w_machine.specs.Beginning.{Begins};
ghost use Rattle.w_machine.specs.Position.{most_reductions};
ghost use Rattle.replies.specs.Answer.{AuditGives, AuditedGives, BytesGive, BytesRefusal, ComparedGives, OnFile, differs, no_trace, unsound};
ghost use Rattle.replies.specs.Stop.{Gives, Refuses};
ghost use Rattle.traces.specs.Auditing.{FileRefused, IsSoundTrace, MayGive, TraceRefusal};
ghost use Rattle.runs.specs.Delivery.{MayFail};
ghost use Rattle.runs.specs.Running.{IsFirst};

use crate::comparing::difference;
use intake::{Input, open};
use replies::{
    Origin, Output, Status, Stop, audit_line, differs_line, no_trace_line, refuse_by, unsound_line,
};
use runs::begin_run;
use std::alloc::Global;
use w_machine::Machine;
use w_outside::Inputs;
use w_rules::Checked;
use w_trace::{Event, OnceFault, Trace, TraceFault, once, read_events};
use words::Takes;

// The module of the file of a name, where it is valid and within its limits.
fn judge_module<F: Inputs>(alloc: Global, files: &mut F, name: &str) -> Result<Checked, Stop>
    ensures read { IfOk result (λ checked. MayGive (F.file files.old name.now) (λ bytes. Spells bytes checked)) }
    ensures within { IfOk result Within }
    ensures valid { IfOk result Valid }
    ensures refused { IfErr result (Refuses (FileRefused (F.file files.old name.now) (Rose (F.faults files.old) (F.faults files.new)) BytesRefusal)) }
    ensures later { F.faults files.old ≤ F.faults files.new }
    ensures names { (n : List ℕ) → F.file files.new n ≡ F.file files.old n }
{
    match open(alloc, files, name, Takes::Modules)? {
        Input::Module(module) => module.judge(alloc),
        Input::Script(_) | Input::Text(_) => unreachable!(),
    }
}

// Why bytes are refused that are no trace, by the number of a line.
fn trace_refusal(alloc: Global, number: usize) -> Stop
    ensures { Refuses (λ reply. reply ≡ no_trace number) result }
{
    match no_trace_line(alloc, number) {
        Ok(line) => refuse_by(alloc, line, Status::BadTrace),
        Err(_) => Stop::OutOfMemory,
    }
}

// The same of a trace whose event of this number is unsound.
fn unsound_refusal(alloc: Global, number: usize) -> Stop
    ensures { Refuses (λ reply. reply ≡ unsound number) result }
{
    match unsound_line(alloc, number) {
        Ok(line) => refuse_by(alloc, line, Status::BadTrace),
        Err(_) => Stop::OutOfMemory,
    }
}

// And of one whose line of this number isn't the run's.
fn differs_refusal(alloc: Global, number: usize) -> Stop
    ensures { Refuses (λ reply. reply ≡ differs number) result }
{
    match differs_line(alloc, number) {
        Ok(line) => refuse_by(alloc, line, Status::BadTrace),
        Err(_) => Stop::OutOfMemory,
    }
}

// The trace that bytes are the text of.
fn parse_trace(alloc: Global, bytes: &[u8]) -> Result<Trace, Stop>
    ensures read { IfOk result (λ x. IsTextOf x bytes.now) }
    ensures refused { IfErr result (Refuses (λ reply. (l : ℕ) × IsWrongAt bytes.now l × (reply ≡ no_trace l))) }
{
    match read_events(alloc, bytes) {
        Ok(trace) => Ok(trace),
        Err(TraceFault::Line(number)) => Err(trace_refusal(alloc, number)),
        Err(TraceFault::OutOfMemory) => Err(Stop::OutOfMemory),
    }
}

// Checks that each continuation is used once.
fn check_once(alloc: Global, events: &[Event]) -> Result<(), Stop>
    ensures sound { OnOk result (IsOneShot (uses_of events.now)) }
    ensures refused { IfErr result (Refuses (λ reply. (l : ℕ) × IsUnsoundAt events.now l × (reply ≡ unsound l))) }
{
    match once(alloc, events) {
        Ok(_) => Ok(()),
        Err(OnceFault::Unsound(number)) => Err(unsound_refusal(alloc, number)),
        Err(OnceFault::OutOfMemory) => Err(Stop::OutOfMemory),
    }
}

// The trace that bytes are the text of, whose events are one-shot.
fn sound_trace(alloc: Global, bytes: &[u8]) -> Result<Trace, Stop>
    ensures read { IfOk result (λ x. IsSoundTrace x bytes.now) }
    ensures refused { IfErr result (Refuses (TraceRefusal bytes.now)) }
{
    let trace = parse_trace(alloc, bytes)?;
    match check_once(alloc, trace.events.as_slice()) {
        Ok(()) => Ok(trace),
        Err(stop) => {
            drop(trace);
            Err(stop)
        }
    }
}

// The trace of the file of a name. Its bytes are let go.
fn read_trace<F: Inputs>(alloc: Global, files: &mut F, name: &str) -> Result<Trace, Stop>
    ensures read { IfOk result (λ x. MayGive (F.file files.old name.now) (IsSoundTrace x)) }
    ensures refused { IfErr result (Refuses (FileRefused (F.file files.old name.now) (Rose (F.faults files.old) (F.faults files.new)) TraceRefusal)) }
    ensures later { F.faults files.old ≤ F.faults files.new }
    ensures names { (n : List ℕ) → F.file files.new n ≡ F.file files.old n }
{
    match open(alloc, files, name, Takes::Texts)? {
        Input::Text(bytes) => sound_trace(alloc, bytes.as_slice()),
        Input::Script(_) | Input::Module(_) => unreachable!(),
    }
}

// What the audit of a trace whose events are one-shot gives, by the run of a machine that has taken no reduction.
fn compare(alloc: Global, machine: &mut Machine, steps: u64, trace: &Trace) -> Result<Output, Stop>
    requires within { steps ≤ most_reductions }
    requires first { IsFirst machine.old }
    ensures { (p : Program) (s : Store) (t : Term) → Begins machine.old.origin p s t
        → Gives (ComparedGives (trace_of p s t steps) (Run p s t steps).store trace.now) result }
{
    match difference(machine, steps, trace)? {
        Some(number) => Err(differs_refusal(alloc, number)),
        None => {
            let line = audit_line(alloc, machine.made(), machine.consumed(), machine.live())?;
            Ok(Output::of_piece(alloc, line)?)
        }
    }
}

// The audit of the trace of this name, by the run of a machine that has taken no reduction.
fn audit_machine<F: Inputs>(
    alloc: Global,
    files: &mut F,
    machine: &mut Machine,
    name: &str,
    steps: u64,
) -> Result<Output, Stop>
    requires within { steps ≤ most_reductions }
    requires first { IsFirst machine.old }
    ensures gives { (p : Program) (s : Store) (t : Term) → Begins machine.old.origin p s t
        → Gives (MayFail (Rose (F.faults files.old) (F.faults files.new)) (OnFile (F.file files.old name.now) (AuditGives steps p s t))) result }
    ensures later { F.faults files.old ≤ F.faults files.new }
    ensures names { (n : List ℕ) → F.file files.new n ≡ F.file files.old n }
{
    let trace = read_trace(alloc, files, name)?;
    let answer = compare(alloc, machine, steps, &trace);
    drop(trace);
    answer
}

/// The audit of what the file `trace` says of the run of the module of the file `file`, for so many steps.
pub fn audit<F: Inputs>(
    alloc: Global,
    files: &mut F,
    file: &str,
    trace: &str,
    steps: u64,
) -> Result<Output, Stop>
    requires { steps ≤ most_reductions }
    ensures gives { Gives (MayFail (Rose (F.faults files.old) (F.faults files.new))
        (OnFile (F.file files.old file.now) (BytesGive (AuditedGives steps (F.file files.old trace.now))))) result }
    ensures later { F.faults files.old ≤ F.faults files.new }
    ensures names { (n : List ℕ) → F.file files.new n ≡ F.file files.old n }
{
    let checked = judge_module(alloc, files, file)?;
    let mut machine = begin_run(alloc, Origin::Module, checked)?;
    let answer = audit_machine(alloc, files, &mut machine, trace, steps);
    drop(machine);
    answer
}
