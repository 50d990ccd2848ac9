//! Runs.
ghost use Rattle.std.specs.Prelude.{◌≡◌, ◌≤◌, ℕ, Bool, true, false, flat_map, Err, IfErr, IfOk};
ghost use Rattle.w_outside.specs.Outside.{Grew, Rose};
ghost use Rattle.w_reduce.specs.Program.{Program};
ghost use Rattle.w_reduce.specs.Run.{Run};
ghost use Rattle.w_reduce.specs.Store.{Store};
ghost use Rattle.w_reduce.specs.Terms.{Term};
ghost use Rattle.w_reduce.specs.Values.{val};
ghost use Rattle.w_inst.specs.Instances.{BeginsAs};
ghost use Rattle.w_machine.specs.Beginning.{Begins};
ghost use Rattle.w_machine.specs.Position.{most_reductions};
ghost use Rattle.w_trace.specs.Endings.{run_limit_text};
ghost use Rattle.replies.specs.Answer.{limit, result_line, stats_line as the_stats_line, run_reply, RunGives};
ghost use Rattle.runs.specs.Leaving.{Leaves};
ghost use Rattle.replies.specs.Pieces.{joined};
ghost use Rattle.runs.specs.Running.{BeginsRunOf, HasNoRun, HasNoStart, IsAfter, IsFirst};
ghost use Rattle.replies.specs.Origin.{trap_reply_of};
ghost use Rattle.replies.specs.Stop.{IsReply, Refuses, WritesMore};

use replies::{
    Origin, Output, Status, Stop, printer_line, refuse, refuse_by, run_limit_line,
    start_limit_line, stats_line, value_line, with_err,
};
use std::alloc::{AllocError, Global};
use w_inst::{InstFault, instantiate};
use w_machine::{Machine, Outcome};
use w_outside::Sink;
use w_reduce::{RunLimit, Trap};
use w_rules::Checked;
use w_types::Value;

/// The refusal by a trap.
pub fn trap_refusal(alloc: Global, origin: Origin, trap: Trap) -> Stop
    ensures { Refuses (λ reply. reply ≡ trap_reply_of origin.entry trap) result }
{
    match origin.trap_line(alloc, trap) {
        Ok(line) => refuse_by(alloc, line, Status::Trap),
        Err(_) => Stop::OutOfMemory,
    }
}

/// The refusal by a limit of a run.
pub fn limit_refusal(alloc: Global, name: RunLimit) -> Stop
    ensures { Refuses (λ reply. reply ≡ limit (run_limit_text name)) result }
{
    match run_limit_line(alloc, name) {
        Ok(line) => refuse_by(alloc, line, Status::Limit),
        Err(_) => Stop::OutOfMemory,
    }
}

/// A line for each result.
pub fn result_lines(alloc: Global, values: &[Value]) -> Result<Vec<Vec<u8>>, AllocError>
    ensures { IfOk result (λ lines. joined lines.items ≡ flat_map (λ v. result_line (val v)) values.now) }
{
    let mut lines = Vec::new(alloc);
    for value in values {
        lines.push(value_line(alloc, *value)?)?;
    }
    Ok(lines)
}

// Runs a machine that has taken no reduction. What is printed goes to out; the answer is what is left to write. Where it is a reply, the
// machine's run is that of so many steps.
fn run_machine<O: Sink>(
    alloc: Global,
    origin: Origin,
    machine: &mut Machine,
    steps: u64,
    out: &mut O,
) -> Result<Output, Stop>
    requires within { steps ≤ most_reductions }
    requires first { IsFirst machine.old }
    ensures leaves { (p : Program) (s : Store) (t : Term) → Begins machine.old.origin p s t
        → Leaves (λ reply. reply ≡ run_reply (trap_reply_of origin.entry) false (Run p s t steps)) result
        (Grew (O.held out.old) (O.held out.new)) (Rose (O.faults out.old) (O.faults out.new)) }
    ensures after { IsReply result → IsAfter machine.new steps }
    ensures origin { machine.new.origin ≡ machine.old.origin }
    ensures later { O.faults out.old ≤ O.faults out.new }
{
    match machine.run(steps, out) {
        Outcome::Ended => {
            let pieces = result_lines(alloc, machine.results())?;
            Ok(Output {
                pieces,
                err: Vec::new(alloc),
            })
        }
        Outcome::Running => Err(refuse(alloc, b"running\n", Status::Running)),
        Outcome::Limit(name) => Err(limit_refusal(alloc, name)),
        Outcome::Trapped(trap) => Err(trap_refusal(alloc, origin, trap)),
        Outcome::WriteFault => Err(Stop::WriteFault),
        Outcome::OutOfMemory => Err(Stop::OutOfMemory),
    }
}

// The answer of a machine's run, where statistics are asked for with their line behind what else goes to err.
fn with_stats(
    alloc: Global,
    stats: bool,
    machine: &Machine,
    answer: Result<Output, Stop>,
) -> Result<Output, Stop>
    ensures asked { stats ≡ true → (p : Program) (s : Store) (t : Term) (steps : ℕ) → Begins machine.now.origin p s t
        → (IsReply answer → IsAfter machine.now steps) → WritesMore (the_stats_line (Run p s t steps)) answer result }
    ensures unasked { stats ≡ false → result ≡ answer }
{
    if !stats {
        return answer;
    }
    let line = stats_line(
        alloc,
        machine.taken(),
        machine.made(),
        machine.consumed(),
        machine.live(),
    )?;
    with_err(answer, line)
}

/// Runs a machine that has taken no reduction, to its answer. It is let go in one place, since each such place is proved anew.
pub fn run_from<O: Sink>(
    alloc: Global,
    origin: Origin,
    mut machine: Machine,
    steps: u64,
    stats: bool,
    out: &mut O,
) -> Result<Output, Stop>
    requires within { steps ≤ most_reductions }
    requires first { IsFirst machine }
    ensures leaves { (p : Program) (s : Store) (t : Term) → Begins machine.origin p s t
        → Leaves (λ reply. reply ≡ run_reply (trap_reply_of origin.entry) stats (Run p s t steps)) result
        (Grew (O.held out.old) (O.held out.new)) (Rose (O.faults out.old) (O.faults out.new)) }
    ensures later { O.faults out.old ≤ O.faults out.new }
{
    let answer = run_machine(alloc, origin, &mut machine, steps, out);
    let replied = with_stats(alloc, stats, &machine, answer);
    drop(machine);
    replied
}

// Why a module has no run.
fn no_run(alloc: Global, origin: Origin, fault: InstFault) -> Stop
    ensures { (p : Program) → BeginsAs p (Err fault) → Refuses (HasNoStart (trap_reply_of origin.entry) p) result }
{
    match fault {
        InstFault::Import(index) => match printer_line(alloc, index) {
            Ok(line) => refuse_by(alloc, line, Status::Invalid),
            Err(_) => Stop::OutOfMemory,
        },
        InstFault::NoEntry => refuse(alloc, b"no entry\n", Status::Invalid),
        InstFault::Limit(name) => refuse(alloc, start_limit_line(name), Status::Limit),
        InstFault::Trap(trap) => trap_refusal(alloc, origin, trap),
        InstFault::OutOfMemory => Stop::OutOfMemory,
    }
}

/// The machine at the begin of a module's run, or why the module has no run.
pub fn begin_run(alloc: Global, origin: Origin, checked: Checked) -> Result<Machine, Stop>
    ensures ready { IfOk result (BeginsRunOf checked) }
    ensures none { IfErr result (Refuses (HasNoRun (trap_reply_of origin.entry) checked)) }
{
    // Which types match which is known.
    let _classes = checked.classes();
    match instantiate(alloc, &checked) {
        Ok(instance) => Ok(Machine::new(alloc, checked, instance)?),
        Err(fault) => {
            drop(checked);
            Err(no_run(alloc, origin, fault))
        }
    }
}

/// Runs a module, where it has a run. What is printed goes to out; the answer is what is left to write.
pub fn run<O: Sink>(
    alloc: Global,
    origin: Origin,
    checked: Checked,
    steps: u64,
    stats: bool,
    out: &mut O,
) -> Result<Output, Stop>
    requires { steps ≤ most_reductions }
    ensures leaves { Leaves (RunGives (trap_reply_of origin.entry) steps stats checked) result
        (Grew (O.held out.old) (O.held out.new)) (Rose (O.faults out.old) (O.faults out.new)) }
    ensures later { O.faults out.old ≤ O.faults out.new }
{
    let machine = begin_run(alloc, origin, checked)?;
    run_from(alloc, origin, machine, steps, stats, out)
}
