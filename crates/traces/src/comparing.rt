//! Comparing a trace with that of a run.
ghost use Rattle.std.specs.Prelude.{◌≡◌, ◌↔◌, ◌≤◌, Some, None, Ok, IfOk, IsTrue, slice_get};
ghost use Rattle.w_reduce.specs.Program.{Program};
ghost use Rattle.w_reduce.specs.Run.{Run};
ghost use Rattle.w_reduce.specs.Store.{Store};
ghost use Rattle.w_reduce.specs.Terms.{Term};
ghost use Rattle.w_trace.specs.Traces.{trace_of};
ghost use Rattle.w_machine.specs.Beginning.{Begins};
ghost use Rattle.w_machine.specs.Position.{most_reductions};
ghost use Rattle.traces.specs.Auditing.{FollowedTo, IsAfterAll, IsDifference};
ghost use Rattle.runs.specs.Running.{IsFirst};

use crate::stepping::{ending_of, go_to_event};
use std::alloc::AllocError;
use w_machine::Machine;
use w_trace::{Event, Trace};

/// How far a list of events and the events of a run go together.
#[derive(Clone, Copy)]
pub(crate) enum Followed {
    /// The run has so many events, the first ones of the list.
    All(usize),
    /// The run's event of this number is another than the list's, or the list has none there.
    Apart(usize),
}

// Whether an event is the one at a place of a list.
fn is_at(events: &[Event], place: usize, event: Event) -> bool
    ensures { IsTrue result ↔ (slice_get events.now place ≡ Some event) }
{
    match events.get(place) {
        Some(other) => *other == event,
        None => false,
    }
}

// Takes so many reductions at most of a machine that has taken none, as long as their events are those of a list.
fn follow(machine: &mut Machine, steps: u64, events: &[Event]) -> Result<Followed, AllocError>
    requires within { steps ≤ most_reductions }
    requires first { IsFirst machine.old }
    ensures followed { IfOk result (λ r. (p : Program) (s : Store) (t : Term) → Begins machine.old.origin p s t → FollowedTo events.now p s t steps machine.new r) }
    ensures after { IfOk result (IsAfterAll machine.new steps) }
    ensures origin { machine.new.origin ≡ machine.old.origin }
{
    let mut place = 0;
    while machine.taken() < steps {
        let (goes, event) = go_to_event(machine, steps)?;
        if let Some(event) = event {
            if !is_at(events, place, event) {
                return Ok(Followed::Apart(place));
            }
            place += 1;
        }
        if !goes {
            return Ok(Followed::All(place));
        }
    }
    Ok(Followed::All(place))
}

/// The first line in which a trace isn't that of the run of a machine that has taken no reduction; `None` where it is that. It fails where
/// memory runs out.
pub(crate) fn difference(
    machine: &mut Machine,
    steps: u64,
    trace: &Trace,
) -> Result<Option<usize>, AllocError>
    requires within { steps ≤ most_reductions }
    requires first { IsFirst machine.old }
    ensures line { IfOk result (λ r. (p : Program) (s : Store) (t : Term) → Begins machine.old.origin p s t → IsDifference trace.now (trace_of p s t steps) r) }
    ensures after { result ≡ Ok None → (p : Program) (s : Store) (t : Term) → Begins machine.old.origin p s t → Run p s t machine.new.taken ≡ Run p s t steps }
    ensures origin { machine.new.origin ≡ machine.old.origin }
{
    let events = trace.events.as_slice();
    let count = match follow(machine, steps, events)? {
        Followed::All(count) => count,
        Followed::Apart(place) => return Ok(Some(place)),
    };
    if count < events.len() {
        return Ok(Some(count));
    }
    let ending = ending_of(machine);
    if trace.taken == machine.taken() && trace.ending == ending {
        Ok(None)
    } else {
        Ok(Some(count))
    }
}
