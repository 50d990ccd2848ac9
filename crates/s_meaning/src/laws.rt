//! Laws of the definitions, each the contract of a function that does nothing.
ghost use Rattle.s_meaning.specs.Laws.{Preserved, NeverWrong, TailCallsKeep};

/// Each step of a typed configuration gives a typed one, or ends with a value or a fault.
pub fn typed_configurations_stay_typed()
    ensures { Preserved }
{}

/// A rule applies to each configuration of a script that breaks no rule, until it ends.
pub fn good_scripts_are_never_wrong()
    ensures { NeverWrong }
{}

/// A tail call keeps the number of activations and of active handles: so a chain of them passes no limit.
#[tactic(auto, using(crate::proofs::TailCalls::tail_calls_keep))]
pub fn tail_calls_keep_activations()
    ensures { TailCallsKeep }
{}
