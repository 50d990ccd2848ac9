//! Laws of the definitions, each the contract of a function that does nothing.
ghost use Rattle.std.specs.Prelude.{◌≡◌, ℕ, List, Result};
ghost use Rattle.s_syntax.specs.declared.script.Script.{Script as TheScript};
ghost use Rattle.s_syntax.specs.declared.token.Token.{Token as TheToken};
ghost use Rattle.s_parse.specs.declared.fault.ParseFault.{ParseFault as TheFault};
ghost use Rattle.s_parse.specs.Refusal.{Means};

/// Tokens have one answer: a script, or one fault.
pub fn one_answer()
    ensures one { (bytes : List ℕ) (ts : List TheToken) (r s : Result TheScript TheFault) → Means bytes ts r → Means bytes ts s → r ≡ s }
{}
