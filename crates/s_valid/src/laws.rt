//! Laws of the definitions, each the contract of a function that does nothing.
ghost use Rattle.s_valid.specs.Laws.{ModulesValid, RunsBegin, SpellingsShort};

/// The module of a script that breaks no rule, and whose size is at most 50,000, is valid and within its limits.
pub fn modules_of_scripts_are_valid()
    ensures valid { ModulesValid }
{}

/// The canonical spelling of such a module has at most 2^24 bytes.
pub fn spellings_of_scripts_are_short()
    ensures short { SpellingsShort }
{}

/// A run of the module of a script that breaks no rule begins: it calls `main`, and no continuation is made yet.
pub fn runs_of_scripts_begin()
    ensures begin { RunsBegin }
{}
