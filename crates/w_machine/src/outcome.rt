//! How steps and runs end.
ghost use Rattle.std.specs.Prelude.{◌≡◌};
ghost use Rattle.w_machine.specs.RunStop.{stepped_of, outcome_of, is_ended};

use w_configuration::RunStop;
use w_reduce::{RunLimit, Trap};

/// What a step comes to.
#[derive(Clone, Copy)]
pub enum Stepped {
    /// One reduction was taken.
    Went,
    /// The term is values; none was taken.
    Ended,
    /// One reduction was taken, and its result passed this limit.
    Limit(RunLimit),
    /// One reduction was taken, and it trapped.
    Trapped(Trap),
    /// The sink failed; none was taken.
    WriteFault,
    /// Memory ran out, at a reduction that may take some: one that calls or invokes a function, or is a `cont.new`, a `memory.grow` or a
    /// `table.grow`; none was taken.
    OutOfMemory,
}

/// What a run comes to.
#[derive(Clone, Copy)]
pub enum Outcome {
    /// The reductions asked for were taken, and a rule still applies.
    Running,
    /// The term is values.
    Ended,
    /// The result of the last reduction passed this limit.
    Limit(RunLimit),
    /// The last reduction trapped.
    Trapped(Trap),
    /// The sink failed.
    WriteFault,
    /// Memory ran out, where a step answers so.
    OutOfMemory,
}

/// Whether what stopped it, if anything did, is that the term is values.
pub(crate) fn has_ended(stop: Option<RunStop>) -> bool
    ensures { result ≡ is_ended stop }
{
    matches!(stop, Some(RunStop::Ended))
}

/// What a step answers that stopped so, or took a reduction.
pub(crate) fn as_stepped(stopped: Option<RunStop>) -> Stepped
    ensures { result ≡ stepped_of stopped }
{
    match stopped {
        None => Stepped::Went,
        Some(RunStop::Ended) => Stepped::Ended,
        Some(RunStop::Limit(name)) => Stepped::Limit(name),
        Some(RunStop::Trapped(trap)) => Stepped::Trapped(trap),
        Some(RunStop::WriteFault) => Stepped::WriteFault,
        Some(RunStop::OutOfMemory) => Stepped::OutOfMemory,
    }
}

/// What a run answers that stopped so, or took its reductions.
pub(crate) fn as_outcome(stopped: Option<RunStop>) -> Outcome
    ensures { result ≡ outcome_of stopped }
{
    match stopped {
        None => Outcome::Running,
        Some(RunStop::Ended) => Outcome::Ended,
        Some(RunStop::Limit(name)) => Outcome::Limit(name),
        Some(RunStop::Trapped(trap)) => Outcome::Trapped(trap),
        Some(RunStop::WriteFault) => Outcome::WriteFault,
        Some(RunStop::OutOfMemory) => Outcome::OutOfMemory,
    }
}
