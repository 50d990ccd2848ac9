//! Runs that are told event by event.
ghost use Rattle.std.specs.Prelude.{◌≡◌, ◌≤◌, ◌<◌, ℕ, None, IfOk};
ghost use Rattle.w_reduce.specs.Program.{Program};
ghost use Rattle.w_reduce.specs.Run.{Run};
ghost use Rattle.w_reduce.specs.Store.{Store};
ghost use Rattle.w_reduce.specs.Terms.{Term};
ghost use Rattle.w_trace.specs.Traces.{ending_of as the_ending};
ghost use Rattle.w_machine.specs.Beginning.{Begins};
ghost use Rattle.w_machine.specs.Position.{IsNoFault, most_reductions};
ghost use Rattle.runs.specs.Running.{IsAfter};
ghost use Rattle.traces.specs.Stepping.{GoesOn, GoesToEvent, IsSettled};

use std::alloc::AllocError;
use w_machine::{Machine, Outcome};
use w_outside::Void;
use w_trace::{Ending, Event};

/// Runs a machine that isn't stopped, and has taken fewer than `steps` reductions, up to its next event, or until it has taken so many,
/// and drops what it prints: whether the machine goes on, and the event, where one came. It fails where memory runs out.
pub(crate) fn go_to_event(
    machine: &mut Machine,
    steps: u64,
) -> Result<(bool, Option<Event>), AllocError>
    requires within { steps ≤ most_reductions }
    requires fewer { machine.old.taken < steps }
    requires none { machine.old.stop ≡ None }
    ensures event { IfOk result (λ r. (p : Program) (s : Store) (t : Term) → Begins machine.old.origin p s t → GoesToEvent p s t r.1 machine.old machine.new) }
    ensures goes { IfOk result (λ r. GoesOn r.0 steps machine.old machine.new) }
    ensures origin { machine.new.origin ≡ machine.old.origin }
{
    let left = steps - machine.taken();
    let (outcome, event) = machine.run_to_event(left, &mut Void);
    // what stopped it is what its run came to
    let _taken = machine.taken();
    match outcome {
        Outcome::Running => Ok((true, event)),
        Outcome::Ended | Outcome::Limit(_) | Outcome::Trapped(_) => Ok((false, event)),
        Outcome::OutOfMemory => Err(AllocError),
        Outcome::WriteFault => unreachable!(),
    }
}

/// How the run of a machine has ended that no fault has stopped. No reduction is taken.
pub(crate) fn ending_of(machine: &mut Machine) -> Ending
    requires few { machine.old.taken ≤ most_reductions }
    requires no_fault { IsNoFault machine.old.stop }
    ensures ending { (p : Program) (s : Store) (t : Term) → Begins machine.old.origin p s t → IsSettled p s t machine.old
        → result ≡ the_ending (Run p s t machine.old.taken).outcome }
    ensures taken { machine.new.taken ≡ machine.old.taken }
    ensures origin { machine.new.origin ≡ machine.old.origin }
    ensures after { (steps : ℕ) → IsAfter machine.old steps → IsAfter machine.new steps }
{
    match machine.run(0, &mut Void) {
        Outcome::Running => Ending::Running,
        Outcome::Ended => Ending::Ended,
        Outcome::Limit(name) => Ending::Limit(name),
        Outcome::Trapped(trap) => Ending::Trapped(trap),
        Outcome::WriteFault | Outcome::OutOfMemory => unreachable!(),
    }
}
