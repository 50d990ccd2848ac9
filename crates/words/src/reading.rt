//! From the words to what they ask for.
ghost use Rattle.std.specs.Prelude.{◌≡◌, ◌≢◌, map, string_bytes, codes, IfOk, IfSome, IsErrOf};
ghost use Rattle.clap.specs.Matches.{found_of};
ghost use Rattle.clap.specs.Values.{kind_of};
ghost use Rattle.clap.specs.Walk.{first_of, rows_of};
ghost use Rattle.clap.specs.Simple.{subcommand_rows_of};
ghost use Rattle.words.specs.Line.{action_of, file_line, files_line, audit_line, named_line, entered_line, line_of, bad, when, generated, generated_in};
ghost use Rattle.words.specs.Request.{Asks, asked_by, IsWithinSteps, IsAllowed};

use crate::commands::parse;
use crate::options::{generated_of, has_stats, steps_of, value_of, values_of};
use crate::request::{Action, Request};
use clap::error::ErrorKind;
use clap::{ArgMatches, Error};
use std::alloc::{AllocError, Global};
use thiserror::Error as DeriveError;

/// Why there is no request.
#[derive(Clone, Copy, Debug, PartialEq, Eq, DeriveError)]
pub enum WordsFault {
    #[error("the words ask for nothing")]
    Bad,
    #[error("out of memory")]
    OutOfMemory,
}

// What a command does with its file.
fn action_named(name: &str, found: &ArgMatches) -> Option<Action>
    ensures action { result ≡ action_of name.now (rows_of (found_of found.now)) }
    ensures within { IfSome result IsWithinSteps }
{
    if name == "check" {
        return Some(Action::Check);
    }
    if name == "run" {
        let steps = steps_of(found)?;
        let stats = has_stats(found);
        return Some(Action::Run { steps, stats });
    }
    if name == "build" {
        return Some(Action::Build);
    }
    if name == "dump" {
        return Some(Action::Dump);
    }
    if name == "asm" {
        return Some(Action::Assemble);
    }
    if name == "trace" {
        let steps = steps_of(found)?;
        return Some(Action::Trace { steps });
    }
    None
}

// What the matches of a command on a file ask for.
fn request_on_file<'a>(name: &str, found: &ArgMatches<'a>) -> Option<Request<'a>>
    ensures asks { Asks result (file_line name.now (rows_of (found_of found.now))) }
    ensures within { IfSome result IsAllowed }
{
    let file = value_of(found, "file")?;
    let action = action_named(name, found)?;
    Some(Request::OnFile { file, action })
}

// What the matches of `link` ask for.
fn request_on_files<'a>(
    alloc: Global,
    found: &ArgMatches<'a>,
) -> Result<Option<Request<'a>>, AllocError>
    ensures asks { IfOk result (λ request. Asks request (files_line (rows_of (found_of found.now)))) }
    ensures within { IfOk result (λ request. IfSome request IsAllowed) }
{
    let Some(files) = values_of(found, "file") else {
        return Ok(None);
    };
    let Some(steps) = steps_of(found) else {
        return Ok(None);
    };
    let stats = has_stats(found);
    let files = Vec::from_slice(alloc, files)?;
    Ok(Some(Request::OnFiles {
        files,
        steps,
        stats,
    }))
}

// What the matches of `audit` ask for.
fn request_audited<'a>(found: &ArgMatches<'a>) -> Option<Request<'a>>
    ensures asks { Asks result (audit_line (rows_of (found_of found.now))) }
    ensures within { IfSome result IsAllowed }
{
    let file = value_of(found, "file")?;
    let trace = value_of(found, "trace")?;
    let steps = steps_of(found)?;
    Some(Request::Audited { file, trace, steps })
}

// What the matches of `gen` ask for.
fn request_generated<'a>(found: &ArgMatches<'a>) -> Option<Request<'a>>
    ensures asks { Asks result (when (generated_in (first_of (codes "number") (rows_of (found_of found.now)))) generated) }
    ensures within { IfSome result IsAllowed }
{
    let number = generated_of(found)?;
    Some(Request::Generated(number))
}

// What the matches of a command ask for.
fn request_named<'a>(
    alloc: Global,
    name: &str,
    found: &ArgMatches<'a>,
) -> Result<Option<Request<'a>>, AllocError>
    ensures asks { IfOk result (λ request. Asks request (named_line name.now (rows_of (found_of found.now)))) }
    ensures within { IfOk result (λ request. IfSome request IsAllowed) }
{
    if name == "gen" {
        return Ok(request_generated(found));
    }
    if name == "link" {
        return request_on_files(alloc, found);
    }
    if name == "audit" {
        return Ok(request_audited(found));
    }
    Ok(request_on_file(name, found))
}

// What the matches ask for. `None` exactly where that is nothing.
fn request_in<'a>(
    alloc: Global,
    matches: &ArgMatches<'a>,
) -> Result<Option<Request<'a>>, AllocError>
    ensures asks { IfOk result (λ request. Asks request (entered_line (subcommand_rows_of matches.now))) }
    ensures within { IfOk result (λ request. IfSome request IsAllowed) }
{
    match matches.subcommand() {
        Some((name, found)) => request_named(alloc, name, found),
        None => Ok(None),
    }
}

// Want of memory, or else a refusal of the words.
fn fault_of_error(error: &Error) -> WordsFault
    ensures bad { result ≡ WordsFault.Bad → kind_of error.now ≢ ErrorKind.OutOfMemory }
    ensures memory { result ≡ WordsFault.OutOfMemory → kind_of error.now ≡ ErrorKind.OutOfMemory }
{
    match error.kind() {
        ErrorKind::OutOfMemory => WordsFault::OutOfMemory,
        _ => WordsFault::Bad,
    }
}

/// What the words ask for, the program's name first.
pub fn request_of<'a>(alloc: Global, words: &'a [String]) -> Result<Request<'a>, WordsFault>
    ensures asks { IfOk result (λ request. line_of (map string_bytes words.entry.now) ≡ asked_by request) }
    ensures within { IfOk result IsAllowed }
    ensures bad { IsErrOf result WordsFault.Bad → line_of (map string_bytes words.entry.now) ≡ bad }
{
    match parse(alloc, words) {
        Ok(matches) => match request_in(alloc, &matches) {
            Ok(Some(request)) => Ok(request),
            Ok(None) => Err(WordsFault::Bad),
            Err(_) => Err(WordsFault::OutOfMemory),
        },
        Err(error) => Err(fault_of_error(&error)),
    }
}
