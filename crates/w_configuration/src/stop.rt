//! What stops a run.
use w_reduce::{RunLimit, Trap};

/// What stopped a machine: it answers the same ever after, and changes nothing.
#[derive(Clone, Copy)]
pub enum RunStop {
    /// The term is values.
    Ended,
    /// The result of the last reduction passed this limit.
    Limit(RunLimit),
    /// The last reduction trapped.
    Trapped(Trap),
    /// The sink failed.
    WriteFault,
    /// Memory ran out, where a step answers so.
    OutOfMemory,
}
