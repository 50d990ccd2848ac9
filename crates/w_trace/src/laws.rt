//! Laws of the definitions, each the contract of a function that does nothing.
ghost use Rattle.w_trace.specs.Once.{OneShotExactly, FirstPartsAreOneShot};
ghost use Rattle.w_trace.specs.Events.{RedexesTell, EventsConsume, EventsLead, EventsAreOneShot};
ghost use Rattle.w_trace.specs.Fitting.{RunsAreOneShot, TracesFit};
ghost use Rattle.w_trace.specs.Lines.{OneTrace, TracesAreRight};

use w_reduce::{only_switches_are_unhandled, plain_reductions_go_apart};
use w_typed::{runs_are_typed, starts_are_typed};

/// What is gone through flag by flag is just what is consumed once, behind its making, and made in order.
pub fn one_shot_exactly()
    ensures { OneShotExactly }
{}

/// Each first part of events that are one-shot is so too.
pub fn first_parts_are_one_shot()
    ensures { FirstPartsAreOneShot }
{}

/// The event of a redex says which continuations its reduction consumes, and which it makes.
pub fn redexes_tell()
    ensures { RedexesTell }
{
    plain_reductions_go_apart();
}

/// What the events of a run consume is what its reductions empty, in order.
pub fn events_consume()
    ensures { EventsConsume }
{
    plain_reductions_go_apart();
}

/// What the events of a run use leads to the continuations that are live then.
pub fn events_lead()
    ensures { EventsLead }
{
    plain_reductions_go_apart();
}

/// Where none was made at first, the events of a run are one-shot.
pub fn events_are_one_shot()
    ensures { EventsAreOneShot }
{
    plain_reductions_go_apart();
}

/// A text is that of one trace.
pub fn one_trace()
    ensures { OneTrace }
{}

/// A text is wrong at no line.
pub fn traces_are_right()
    ensures { TracesAreRight }
{}

/// The events of the run of a sound module are one-shot.
pub fn runs_are_one_shot()
    ensures { RunsAreOneShot }
{
    starts_are_typed();
    plain_reductions_go_apart();
}

/// The numbers of the trace of a run are in their ranges, where the module is sound and its tags are numbers of 32 bits.
pub fn traces_fit()
    ensures { TracesFit }
{
    starts_are_typed();
    runs_are_typed();
    plain_reductions_go_apart();
    only_switches_are_unhandled();
}
