//! Laws of the definitions, each the contract of a function that does nothing.
ghost use Rattle.w_typed.specs.Captures.{KeptContextsAreTerms, SuspendsCaptureTyped, SwitchesCaptureTyped};
ghost use Rattle.w_typed.specs.Configurations.{FramesHoldNoMore, NextHasRoom, NextsAreSafe, ReductionsAreSafe, RunsAreTyped, StartsAreTyped};

/// Preservation and progress: a reduction of a typed configuration of a sound module leads to one of the same results, to a trap, to a
/// limit or to values, and is never stuck.
pub fn reductions_are_safe()
    ensures { ReductionsAreSafe }
{}

/// The same before limits are looked at.
pub fn nexts_are_safe()
    ensures { NextsAreSafe }
{}

/// Where a run of a sound module begins, the configuration is typed, and its results are main's.
pub fn starts_are_typed()
    ensures { StartsAreTyped }
{}

/// A run from a typed configuration of a sound module stays typed, and is never stuck.
pub fn runs_are_typed()
    ensures { RunsAreTyped }
{}

/// The innermost frame of a typed configuration, and of a continuation with what it takes, holds no more operands and labels than its
/// function has at any place, as validation counts them.
pub fn frames_hold_no_more()
    ensures { FramesHoldNoMore }
{}

/// Before each instruction of a typed configuration the innermost frame holds, with the operand that it gives and the label that it
/// enters, no more than its function has at any place.
pub fn next_has_room()
    ensures { NextHasRoom }
{}

/// What a suspend or a switch captures up to a handle, with the operands beneath, is a continuation of just the handle's results, where
/// each supertype is of its subtypes' kind.
pub fn captures_are_typed()
    ensures suspends { SuspendsCaptureTyped }
    ensures switches { SwitchesCaptureTyped }
{}

/// A continuation of a typed store, filled with values of its parameters, is a term of its results.
pub fn kept_contexts_are_terms()
    ensures { KeptContextsAreTerms }
{}
