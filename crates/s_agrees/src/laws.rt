//! Laws of the definitions, each the contract of a function that does nothing.
ghost use Rattle.s_agrees.specs.Agrees.{RunsFollow, ScriptsAgree};

/// A run of the module of a script that breaks no rule follows the script, for every number of reductions.
pub fn runs_of_scripts_follow()
    ensures { RunsFollow }
{}

/// Each script that breaks no rule and isn't too large agrees with its module: the module's canonical spelling is a spelling of it of at
/// most 2^24 bytes, the module is valid and within its limits, and its runs begin and follow the script.
pub fn scripts_agree()
    ensures { ScriptsAgree }
{}
