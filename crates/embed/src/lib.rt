//! The program as functions that C calls, on bytes in memory. `include/stackwasm.h` says what a caller owes.
#![tactic(auto)]

ghost use Rattle.std.specs.Prelude.{◌≡◌, ◌≢◌, ◌<◌, ◌≤◌, ◌^◌, length};
ghost use Rattle.std.specs.List.{sum};
ghost use Rattle.words.specs.declared.request.Action.TheVariants as action;
ghost use Rattle.w_outside.specs.Outside.{holds};
ghost use Rattle.replies.specs.Answer.{ActionGives, AuditedGives, BytesGive, NamesGive, OnBytes};
ghost use Rattle.handing.specs.Files.{files_of};
ghost use Rattle.handing.specs.Handed.{HandsByCode, HandsNothing};

use handing::{hand_answer, hand_audit, hand_link};
use std::alloc::Global;
use words::{Action, MOST_STEPS};

mod stepped;

/// The status of a call that asks for more than 2^40 steps.
const TOO_MANY_STEPS: u32 = 14;

/// The status of a call whose lengths of files don't add up to that of their bytes.
const WRONG_LENGTHS: u32 = 17;

/// Judges a module or a script.
#[unsafe(no_mangle)]
pub extern "C" fn stackwasm_check(
    alloc: Global,
    bytes: &[u8],
    out: &mut [u8],
    out_length: &mut u64,
    err: &mut [u8],
    err_length: &mut u64,
) -> u32
    ensures { HandsByCode (OnBytes (ActionGives action.Check) bytes.now) result
        (record { out = out.old; out_length = out_length.old; err = err.old; err_length = err_length.old })
        (record { out = out.new; out_length = out_length.new; err = err.new; err_length = err_length.new }) }
{
    let status = hand_answer(
        alloc,
        Action::Check,
        bytes,
        out,
        out_length,
        err,
        err_length,
    );
    u32::from(status.code())
}

/// Writes a module in its canonical spelling, or the module of a script.
#[unsafe(no_mangle)]
pub extern "C" fn stackwasm_build(
    alloc: Global,
    bytes: &[u8],
    out: &mut [u8],
    out_length: &mut u64,
    err: &mut [u8],
    err_length: &mut u64,
) -> u32
    ensures { HandsByCode (OnBytes (ActionGives action.Build) bytes.now) result
        (record { out = out.old; out_length = out_length.old; err = err.old; err_length = err_length.old })
        (record { out = out.new; out_length = out_length.new; err = err.new; err_length = err_length.new }) }
{
    let status = hand_answer(
        alloc,
        Action::Build,
        bytes,
        out,
        out_length,
        err,
        err_length,
    );
    u32::from(status.code())
}

/// Writes a module as text.
#[unsafe(no_mangle)]
pub extern "C" fn stackwasm_dump(
    alloc: Global,
    bytes: &[u8],
    out: &mut [u8],
    out_length: &mut u64,
    err: &mut [u8],
    err_length: &mut u64,
) -> u32
    ensures { HandsByCode (OnBytes (ActionGives action.Dump) bytes.now) result
        (record { out = out.old; out_length = out_length.old; err = err.old; err_length = err_length.old })
        (record { out = out.new; out_length = out_length.new; err = err.new; err_length = err_length.new }) }
{
    let status = hand_answer(alloc, Action::Dump, bytes, out, out_length, err, err_length);
    u32::from(status.code())
}

/// Reads a module from its text, and writes it in its canonical spelling.
#[unsafe(no_mangle)]
pub extern "C" fn stackwasm_asm(
    alloc: Global,
    bytes: &[u8],
    out: &mut [u8],
    out_length: &mut u64,
    err: &mut [u8],
    err_length: &mut u64,
) -> u32
    ensures { HandsByCode (OnBytes (ActionGives action.Assemble) bytes.now) result
        (record { out = out.old; out_length = out_length.old; err = err.old; err_length = err_length.old })
        (record { out = out.new; out_length = out_length.new; err = err.new; err_length = err_length.new }) }
{
    let status = hand_answer(
        alloc,
        Action::Assemble,
        bytes,
        out,
        out_length,
        err,
        err_length,
    );
    u32::from(status.code())
}

/// Runs a module or a script for so many steps at most, and tells statistics or not.
#[unsafe(no_mangle)]
pub extern "C" fn stackwasm_run(
    alloc: Global,
    bytes: &[u8],
    steps: u64,
    stats: bool,
    out: &mut [u8],
    out_length: &mut u64,
    err: &mut [u8],
    err_length: &mut u64,
) -> u32
    ensures answered { steps ≤ 2 ^ 40 → HandsByCode (OnBytes (ActionGives (action.Run steps stats)) bytes.now) result
        (record { out = out.old; out_length = out_length.old; err = err.old; err_length = err_length.old })
        (record { out = out.new; out_length = out_length.new; err = err.new; err_length = err_length.new }) }
    ensures refused { 2 ^ 40 < steps → (result ≡ 14) × HandsNothing
        (record { out = out.old; out_length = out_length.old; err = err.old; err_length = err_length.old })
        (record { out = out.new; out_length = out_length.new; err = err.new; err_length = err_length.new }) }
{
    if steps > MOST_STEPS {
        *out_length = 0;
        *err_length = 0;
        return TOO_MANY_STEPS;
    }
    let action = Action::Run { steps, stats };
    let status = hand_answer(alloc, action, bytes, out, out_length, err, err_length);
    u32::from(status.code())
}

/// Runs a module for so many steps at most, and writes what the run does with continuations.
#[unsafe(no_mangle)]
pub extern "C" fn stackwasm_trace(
    alloc: Global,
    bytes: &[u8],
    steps: u64,
    out: &mut [u8],
    out_length: &mut u64,
    err: &mut [u8],
    err_length: &mut u64,
) -> u32
    ensures answered { steps ≤ 2 ^ 40 → HandsByCode (OnBytes (ActionGives (action.Trace steps)) bytes.now) result
        (record { out = out.old; out_length = out_length.old; err = err.old; err_length = err_length.old })
        (record { out = out.new; out_length = out_length.new; err = err.new; err_length = err_length.new }) }
    ensures refused { 2 ^ 40 < steps → (result ≡ 14) × HandsNothing
        (record { out = out.old; out_length = out_length.old; err = err.old; err_length = err_length.old })
        (record { out = out.new; out_length = out_length.new; err = err.new; err_length = err_length.new }) }
{
    if steps > MOST_STEPS {
        *out_length = 0;
        *err_length = 0;
        return TOO_MANY_STEPS;
    }
    let action = Action::Trace { steps };
    let status = hand_answer(alloc, action, bytes, out, out_length, err, err_length);
    u32::from(status.code())
}

/// Audits a trace of the run of a module, for so many steps.
#[unsafe(no_mangle)]
pub extern "C" fn stackwasm_audit(
    alloc: Global,
    bytes: &[u8],
    trace: &[u8],
    steps: u64,
    out: &mut [u8],
    out_length: &mut u64,
    err: &mut [u8],
    err_length: &mut u64,
) -> u32
    ensures answered { steps ≤ 2 ^ 40 → HandsByCode (OnBytes (BytesGive (AuditedGives steps (holds trace.now))) bytes.now) result
        (record { out = out.old; out_length = out_length.old; err = err.old; err_length = err_length.old })
        (record { out = out.new; out_length = out_length.new; err = err.new; err_length = err_length.new }) }
    ensures refused { 2 ^ 40 < steps → (result ≡ 14) × HandsNothing
        (record { out = out.old; out_length = out_length.old; err = err.old; err_length = err_length.old })
        (record { out = out.new; out_length = out_length.new; err = err.new; err_length = err_length.new }) }
{
    if steps > MOST_STEPS {
        *out_length = 0;
        *err_length = 0;
        return TOO_MANY_STEPS;
    }
    let status = hand_audit(alloc, bytes, trace, steps, out, out_length, err, err_length);
    u32::from(status.code())
}

/// Links modules whose spellings stand one behind the other, each of its length, and runs them.
#[unsafe(no_mangle)]
pub extern "C" fn stackwasm_link(
    alloc: Global,
    bytes: &[u8],
    lengths: &[u64],
    steps: u64,
    stats: bool,
    out: &mut [u8],
    out_length: &mut u64,
    err: &mut [u8],
    err_length: &mut u64,
) -> u32
    ensures answered { steps ≤ 2 ^ 40 → sum lengths.now ≡ length bytes.now
        → HandsByCode (NamesGive steps stats (files_of lengths.now bytes.now) holds) result
        (record { out = out.old; out_length = out_length.old; err = err.old; err_length = err_length.old })
        (record { out = out.new; out_length = out_length.new; err = err.new; err_length = err_length.new }) }
    ensures wrong_lengths { steps ≤ 2 ^ 40 → sum lengths.now ≢ length bytes.now → (result ≡ 17) × HandsNothing
        (record { out = out.old; out_length = out_length.old; err = err.old; err_length = err_length.old })
        (record { out = out.new; out_length = out_length.new; err = err.new; err_length = err_length.new }) }
    ensures refused { 2 ^ 40 < steps → (result ≡ 14) × HandsNothing
        (record { out = out.old; out_length = out_length.old; err = err.old; err_length = err_length.old })
        (record { out = out.new; out_length = out_length.new; err = err.new; err_length = err_length.new }) }
{
    if steps > MOST_STEPS {
        *out_length = 0;
        *err_length = 0;
        return TOO_MANY_STEPS;
    }
    match hand_link(
        alloc, bytes, lengths, steps, stats, out, out_length, err, err_length,
    ) {
        Some(status) => u32::from(status.code()),
        None => WRONG_LENGTHS,
    }
}
