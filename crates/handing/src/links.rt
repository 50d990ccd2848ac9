//! Modules in memory that are linked.
ghost use Rattle.std.specs.Prelude.{◌≡◌, ◌≤◌, ◌↔◌, ◌++◌, ◌∷◌, [], ◌≢◌, ◌⊎◌, None, length, IfOk, IfErr, IfSome, IsTrue, OnOk};
ghost use Rattle.std.specs.List.{sum};
ghost use Rattle.w_outside.specs.Outside.{Grew, Rose, holds};
ghost use Rattle.w_machine.specs.Position.{most_reductions};
ghost use Rattle.replies.specs.Answer.{NamesGive};
ghost use Rattle.replies.specs.Stop.{Refuses};
ghost use Rattle.runs.specs.Delivery.{Replies};
ghost use Rattle.runs.specs.Leaving.{Leaves};
ghost use Rattle.drive.specs.Linking.{AreRead, AreRefused};
ghost use Rattle.handing.specs.Handed.{Hands, HandsNothing};
ghost use Rattle.handing.specs.Files.{files_of};

use crate::handing::hand_over;
use drive::{MOST_FILES, run_linked};
use fronts::FrontSink;
use intake::judge_file;
use replies::{Output, Status, Stop, refuse};
use runs::deliver;
use std::alloc::{AllocError, Global};
use w_outside::{Fault, Sink};
use w_rules::Checked;

// Whether lengths add up to so many.
fn add_up(lengths: &[u64], total: usize) -> bool
    ensures { IsTrue result ↔ sum lengths.now ≡ total }
{
    let mut left = total as u64;
    for length in lengths {
        if *length > left {
            return false;
        }
        left -= *length;
    }
    left == 0
}

// A module more.
fn push_module(modules: &mut Vec<Checked>, checked: Checked) -> Result<(), AllocError>
    ensures { OnOk result (modules.new.items ≡ modules.old.items ++ checked ∷ []) }
{
    modules.push(checked)?;
    Ok(())
}

// The modules whose spellings stand one behind the other, each of its length, where each is valid and within its limits.
fn read_files(alloc: Global, bytes: &[u8], lengths: &[u64]) -> Result<Vec<Checked>, Stop>
    requires { sum lengths.now ≡ length bytes.now }
    ensures read { IfOk result (λ modules. AreRead (files_of lengths.now bytes.now) holds modules.items) }
    ensures refused { IfErr result (Refuses (AreRefused (files_of lengths.now bytes.now) holds ⊥)) }
{
    let mut modules = Vec::new(alloc);
    let mut rest = bytes;
    for length in lengths {
        let (piece, behind) = rest.split_at(*length as usize);
        let checked = judge_file(alloc, piece, modules.len())?;
        push_module(&mut modules, checked)?;
        rest = behind;
    }
    Ok(modules)
}

// Runs them, linked. What is printed goes to out; the answer is what is left to write.
fn link_files<O: Sink>(
    alloc: Global,
    bytes: &[u8],
    lengths: &[u64],
    steps: u64,
    stats: bool,
    out: &mut O,
) -> Result<Output, Stop>
    requires files { sum lengths.now ≡ length bytes.now }
    requires few { steps ≤ most_reductions }
    ensures leaves { Leaves (NamesGive steps stats (files_of lengths.now bytes.now) holds) result
        (Grew (O.held out.old) (O.held out.new)) (Rose (O.faults out.old) (O.faults out.new)) }
    ensures later { O.faults out.old ≤ O.faults out.new }
{
    if lengths.len() > MOST_FILES {
        return Err(refuse(alloc, b"limit files\n", Status::Limit));
    }
    let modules = read_files(alloc, bytes, lengths)?;
    run_linked(alloc, modules, steps, stats, out)
}

// Answers with their run.
fn respond<O: Sink, E: Sink>(
    alloc: Global,
    bytes: &[u8],
    lengths: &[u64],
    steps: u64,
    stats: bool,
    out: &mut O,
    err: &mut E,
) -> Result<Status, Fault>
    requires files { sum lengths.now ≡ length bytes.now }
    requires few { steps ≤ most_reductions }
    ensures replies { Replies (NamesGive steps stats (files_of lengths.now bytes.now) holds) result
        (Grew (O.held out.old) (O.held out.new)) (Grew (E.held err.old) (E.held err.new))
        (Rose (O.faults out.old) (O.faults out.new) ⊎ Rose (E.faults err.old) (E.faults err.new)) }
{
    let answer = link_files(alloc, bytes, lengths, steps, stats, out);
    deliver(answer, out, err)
}

/// Runs modules, linked, whose spellings stand in memory one behind the other, each of its length, for so many steps at most, and hands the
/// answer over as `hand_answer` does. `None`: the lengths don't add up to that of the bytes, and nothing is handed over.
pub fn hand_link(
    alloc: Global,
    bytes: &[u8],
    lengths: &[u64],
    steps: u64,
    stats: bool,
    out: &mut [u8],
    out_length: &mut u64,
    err: &mut [u8],
    err_length: &mut u64,
) -> Option<Status>
    requires { steps ≤ most_reductions }
    ensures linked { sum lengths.now ≡ length bytes.now
        → IfSome result (λ status. Hands (NamesGive steps stats (files_of lengths.now bytes.now) holds) status
        (record { out = out.old; out_length = out_length.old; err = err.old; err_length = err_length.old })
        (record { out = out.new; out_length = out_length.new; err = err.new; err_length = err_length.new })) }
    ensures refused { sum lengths.now ≢ length bytes.now → (result ≡ None) × HandsNothing
        (record { out = out.old; out_length = out_length.old; err = err.old; err_length = err_length.old })
        (record { out = out.new; out_length = out_length.new; err = err.new; err_length = err_length.new }) }
    ensures some { sum lengths.now ≡ length bytes.now → result ≢ None }
{
    if !add_up(lengths, bytes.len()) {
        *out_length = 0;
        *err_length = 0;
        return None;
    }
    let mut written = FrontSink::new(alloc, out.len());
    let mut told = FrontSink::new(alloc, err.len());
    let status = match respond(alloc, bytes, lengths, steps, stats, &mut written, &mut told) {
        Ok(status) => status,
        // no write fails
        Err(_) => Status::OutOfMemory,
    };
    Some(hand_over(status, &written, &told, out, out_length, err, err_length))
}
