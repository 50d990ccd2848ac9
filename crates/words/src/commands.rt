//! The command line, as clap sees it.
ghost use Rattle.std.specs.Prelude.{◌≡◌, [], map, string_bytes, codes, false, IfOk, IfErr, IsOkAnd};
ghost use Rattle.clap.specs.Kinds.{HasKind};
ghost use Rattle.clap.specs.Faults.{fault_of};
ghost use Rattle.clap.specs.Simple.{app_of, new_app, on_top, with_rule, with_subcommand, subcommand_of, subcommand_rows_of};
ghost use Rattle.clap.specs.declared.builder.command.Command.TheViews.{out-Command};
ghost use Rattle.words.specs.Line.{the_app, settings, file_app, run_app, gen_app, link_app, trace_app, audit_app, steps_rule, stats_rule};

use clap::{Arg, ArgAction, ArgMatches, Command, Error};
use std::alloc::{AllocError, Global};

// A command on a file, which has to be named.
fn file_command<'a>(alloc: Global, name: &'a str) -> Result<Command<'a>, AllocError>
    ensures app { IfOk result (λ c. app_of c ≡ file_app name.entry.now) }
    ensures local { IfOk result (λ c. (out-Command c).has_globals ≡ false) }
{
    let file = Arg::new(alloc, "file").required(true);
    Command::new(alloc, name).arg(file)
}

// The command with the option `--steps N`.
fn with_steps<'a>(alloc: Global, command: Command<'a>) -> Result<Command<'a>, AllocError>
    requires local { (out-Command command).has_globals ≡ false }
    ensures app { IfOk result (λ c. app_of c ≡ with_rule (app_of command.entry) steps_rule) }
    ensures local { IfOk result (λ c. (out-Command c).has_globals ≡ false) }
{
    let steps = Arg::new(alloc, "steps").long("steps");
    command.arg(steps)
}

// The command with the flag `--stats`.
fn with_stats<'a>(alloc: Global, command: Command<'a>) -> Result<Command<'a>, AllocError>
    requires local { (out-Command command).has_globals ≡ false }
    ensures app { IfOk result (λ c. app_of c ≡ with_rule (app_of command.entry) stats_rule) }
    ensures local { IfOk result (λ c. (out-Command c).has_globals ≡ false) }
{
    let stats = Arg::new(alloc, "stats")
        .long("stats")
        .action(ArgAction::SetTrue);
    command.arg(stats)
}

// `run FILE [--steps N] [--stats]`.
fn run_command<'a>(alloc: Global) -> Result<Command<'a>, AllocError>
    ensures app { IfOk result (λ c. app_of c ≡ run_app) }
    ensures local { IfOk result (λ c. (out-Command c).has_globals ≡ false) }
{
    let run = file_command(alloc, "run")?;
    let run = with_steps(alloc, run)?;
    with_stats(alloc, run)
}

// `link FILE.. [--steps N] [--stats]`.
fn link_command<'a>(alloc: Global) -> Result<Command<'a>, AllocError>
    ensures app { IfOk result (λ c. app_of c ≡ link_app) }
    ensures local { IfOk result (λ c. (out-Command c).has_globals ≡ false) }
{
    let files = Arg::new(alloc, "file").num_args(1..).required(true);
    let link = Command::new(alloc, "link").arg(files)?;
    let link = with_steps(alloc, link)?;
    with_stats(alloc, link)
}

// `trace FILE [--steps N]`.
fn trace_command<'a>(alloc: Global) -> Result<Command<'a>, AllocError>
    ensures app { IfOk result (λ c. app_of c ≡ trace_app) }
    ensures local { IfOk result (λ c. (out-Command c).has_globals ≡ false) }
{
    let trace = file_command(alloc, "trace")?;
    with_steps(alloc, trace)
}

// `audit FILE TRACE [--steps N]`.
fn audit_command<'a>(alloc: Global) -> Result<Command<'a>, AllocError>
    ensures app { IfOk result (λ c. app_of c ≡ audit_app) }
    ensures local { IfOk result (λ c. (out-Command c).has_globals ≡ false) }
{
    let trace = Arg::new(alloc, "trace").required(true);
    let audit = file_command(alloc, "audit")?.arg(trace)?;
    with_steps(alloc, audit)
}

// `gen N`.
fn gen_command<'a>(alloc: Global) -> Result<Command<'a>, AllocError>
    ensures app { IfOk result (λ c. app_of c ≡ gen_app) }
    ensures local { IfOk result (λ c. (out-Command c).has_globals ≡ false) }
{
    let number = Arg::new(alloc, "number").required(true);
    Command::new(alloc, "gen").arg(number)
}

// The commands with one more. Where that wasn't made, the others go by a call of `drop`: let go in place, each part of a command would be a
// case of this function's proof.
fn with_command<'a>(
    top: Command<'a>,
    command: Result<Command<'a>, AllocError>,
) -> Result<Command<'a>, AllocError>
    ensures { IfOk result (λ c. IsOkAnd command.entry (λ d. (out-Command d).has_globals ≡ false → app_of c ≡ with_subcommand (app_of top.entry) (app_of d).top)) }
{
    match command {
        Ok(command) => top.subcommand(command),
        Err(failed) => {
            drop(top);
            Err(failed)
        }
    }
}

// The program without its commands. `help` and `--help` are words like others.
fn program<'a>(alloc: Global) -> Command<'a>
    ensures { app_of result ≡ on_top settings (new_app (codes "stackwasm")) }
{
    Command::new(alloc, "stackwasm")
        .subcommand_required(true)
        .disable_help_flag(true)
        .disable_help_subcommand(true)
}

// The program's commands.
fn commands<'a>(alloc: Global) -> Result<Command<'a>, AllocError>
    ensures { IfOk result (λ c. app_of c ≡ the_app) }
{
    let checking = with_command(program(alloc), file_command(alloc, "check"))?;
    let running = with_command(checking, run_command(alloc))?;
    let building = with_command(running, file_command(alloc, "build"))?;
    let making = with_command(building, gen_command(alloc))?;
    let dumping = with_command(making, file_command(alloc, "dump"))?;
    let assembling = with_command(dumping, file_command(alloc, "asm"))?;
    let linking = with_command(assembling, link_command(alloc))?;
    let tracing = with_command(linking, trace_command(alloc))?;
    let all = with_command(tracing, audit_command(alloc))?;
    Ok(all)
}

/// What clap makes of the words.
pub(crate) fn parse<'a>(alloc: Global, words: &'a [String]) -> Result<ArgMatches<'a>, Error>
    ensures taken { IfOk result (λ m. fault_of the_app (map string_bytes words.entry.now) ≡ []) }
    ensures rows { IfOk result (λ m. subcommand_rows_of m
        ≡ subcommand_of the_app (map string_bytes words.entry.now)) }
    ensures refused { IfErr result (λ e. HasKind (fault_of the_app (map string_bytes words.entry.now)) e) }
{
    commands(alloc)?.try_get_matches_from(words)
}
