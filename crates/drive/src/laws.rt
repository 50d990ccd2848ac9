//! Laws of the definitions, each the contract of a function that does nothing.
ghost use Rattle.drive.specs.Audited.{AuditsAreExact};
ghost use Rattle.drive.specs.Built.{BuildIsIdempotent, BuiltFilesAreAccepted, BuiltScriptsAreShort};
ghost use Rattle.drive.specs.Dumped.{DumpedFilesAreBuilt};
ghost use Rattle.drive.specs.Laws.{OneAnswer, SomeAnswer};
ghost use Rattle.drive.specs.Meaning.{AnswersMean, BuiltRunsAreAlike, RunsMean, StoppedRunsMean};

use w_spelled::tags_are_few;
use w_trace::{runs_are_one_shot, traces_fit};

/// Where something is told of each name, a line has one answer.
pub fn one_answer()
    ensures { OneAnswer }
{}

/// Whatever is told of the files, there can't be no answer.
pub fn some_answer()
    ensures { SomeAnswer }
{}

/// What `build` wrote of a file, it writes again.
pub fn build_is_idempotent()
    ensures { BuildIsIdempotent }
{}

/// `check` of a file of what `build` wrote says that it is a module.
pub fn built_files_are_accepted()
    ensures { BuiltFilesAreAccepted }
{}

/// What `build` writes of a script is never too long for a file.
pub fn built_scripts_are_short()
    ensures { BuiltScriptsAreShort }
{}

/// What `dump` wrote of a file, `asm` takes for the module of that file.
pub fn dumped_files_are_built()
    ensures { DumpedFilesAreBuilt }
{}

/// `audit` says that a file is the trace of a run just where it holds what `trace` writes.
pub fn audits_are_exact()
    ensures { AuditsAreExact }
{
    traces_fit();
    runs_are_one_shot();
    tags_are_few();
}

/// The run of a script prints, faults and ends as its meaning says, for each number of reductions.
pub fn runs_of_scripts_mean()
    ensures { RunsMean }
{}

/// The run of what `build` writes of a script prints what the run of the script prints, and ends with the same status.
pub fn built_runs_are_alike()
    ensures { BuiltRunsAreAlike }
{}

/// Each answer to `run` on a file of a script is told by the script's meaning.
pub fn answers_to_scripts_mean()
    ensures { AnswersMean }
{}

/// Where a write fault or want of memory stops the run of a script, what was written to out begins what the script prints, with the line of
/// its value behind it.
pub fn stopped_runs_of_scripts_mean()
    ensures { StoppedRunsMean }
{}
