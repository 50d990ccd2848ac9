//! Laws of the definitions, each the contract of a function that does nothing.
ghost use Rattle.std.specs.Prelude.{ℕ};
ghost use Rattle.w_reduce.specs.Tree.{Decomposes, Deterministic};
ghost use Rattle.w_reduce.specs.Handlers.{Finds, FindsNone};
ghost use Rattle.w_reduce.specs.Apart.{PlainReductionsGoApart};
ghost use Rattle.w_reduce.specs.Entering.{OnlyCallsAddFrames};
ghost use Rattle.w_reduce.specs.Unhandled.{OnlySwitchesAreUnhandled};

/// A term is a redex in a context in one way only.
pub fn decomposes()
    ensures { Decomposes }
{}

/// At most one rule applies to a term, with one result.
pub fn deterministic()
    ensures { Deterministic }
{}

/// The handle that is found for a tag is the innermost one that has a clause of the right kind for it.
pub fn finds_innermost()
    ensures labels { Finds ℕ }
    ensures no_label { FindsNone ℕ }
    ensures switches { Finds (Unit {0}) }
    ensures no_switch { FindsNone (Unit {0}) }
{}

/// A reduction by no rule of switching neither looks at continuations nor changes them.
pub fn plain_reductions_go_apart()
    ensures { PlainReductionsGoApart }
{}

/// Of the reductions that switch no stacks, calls alone add a frame.
pub fn only_calls_add_frames()
    ensures { OnlyCallsAddFrames }
{}

/// That nothing handles a tag is the trap of no reduction but those by rules of switching.
pub fn only_switches_are_unhandled()
    ensures { OnlySwitchesAreUnhandled }
{}
