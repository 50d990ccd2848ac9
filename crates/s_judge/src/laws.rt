//! Laws of the definitions, each the contract of a function that does nothing.
ghost use Rattle.std.specs.Prelude.{◌≡◌, ℕ, List, Result};
ghost use Rattle.s_syntax.specs.declared.script.Script.{Script as TheScript};
ghost use Rattle.s_judge.specs.declared.fault.ScriptFault.{ScriptFault as TheFault};
ghost use Rattle.s_judge.specs.Judgements.{Means};

/// Bytes have one judgement at most.
pub fn one_judgement()
    ensures one { (bytes : List ℕ) (r s : Result TheScript TheFault) → Means bytes r → Means bytes s → r ≡ s }
{}

/// And they have one.
pub fn some_judgement()
    ensures some { (bytes : List ℕ) → (r : Result TheScript TheFault) × Means bytes r }
{}
