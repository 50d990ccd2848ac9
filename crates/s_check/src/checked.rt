//! Scripts that break no rule.

use s_syntax::Script;
use std::marker::Model;

/// A script that breaks no rule. Contracts see the script.
#[derive(Drop)]
pub struct CheckedScript {
    script: Script,
}

impl Model for CheckedScript {
    ghost use Rattle.s_syntax.specs.declared.script.Script.{Script};
    ghost use Rattle.s_check.specs.Refusal.{Good};

    ghost Value = { Script };

    ghost use Rattle.s_syntax.specs.contracts.script.Script as script_contract;

    ghost coded = { script_contract.the_row.coded };

    ghost view = { λ a. a.script };

    ghost invariant = { λ a. Good a.script };
}

impl CheckedScript {
    ghost use Rattle.std.specs.Prelude.{◌≡◌};
    ghost use Rattle.s_check.specs.Refusal.{Good};

    // Keeps a script that breaks no rule.
    pub(crate) fn make(script: Script) -> CheckedScript
        requires good { Good script }
        ensures value { result ≡ script }
    {
        CheckedScript { script }
    }

    /// The script.
    pub fn script(&self) -> &Script
        ensures same { result.now ≡ self.now }
        ensures good { Good self.now }
    {
        &self.script
    }
}
