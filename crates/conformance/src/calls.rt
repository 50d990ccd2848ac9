//! The call of a row.
ghost use Rattle.std.specs.Prelude.{◌≡◌, ◌↔◌, IsTrue, IfOk, List, map, string_bytes};
ghost use Rattle.w_outside.specs.Files.{known_in};
ghost use Rattle.words.specs.Line.{line_of};
ghost use Rattle.conformance.specs.Ending.{IsEndingOf};

use crate::rows::{Ending, Fails};
use drive::command;
use std::alloc::{AllocError, Global};
use w_outside::{MemInputs, MemSink};

/// Calls the program with these words over these files, where these calls fail.
pub(crate) fn perform(
    alloc: Global,
    words: &[String],
    files: Vec<(String, Vec<u8>)>,
    fails: Fails,
) -> Result<Ending, AllocError>
    // It came to what the definition of the program answers to these words over these files, where no call failed.
    ensures { IfOk result (λ ending. IsEndingOf (line_of (map string_bytes words.now)) (known_in files.items) ending.status ending.out.items ending.err.items) }
{
    let Fails {
        inputs: of_inputs,
        out: of_out,
        err: of_err,
    } = fails;
    let mut inputs = MemInputs::new(alloc, files, of_inputs)?;
    let mut out = MemSink::new(alloc, of_out)?;
    let mut err = MemSink::new(alloc, of_err)?;
    let status = command(alloc, words, &mut inputs, &mut out, &mut err);
    Ok(Ending {
        status: status.code(),
        out: out.held().to_vec(alloc)?,
        err: err.held().to_vec(alloc)?,
    })
}

/// Whether two calls came to the same.
pub(crate) fn is_same(one: &Ending, other: &Ending) -> bool
    ensures { IsTrue result ↔ (one.now.status ≡ other.now.status) × (one.now.out.items ≡ other.now.out.items) × (one.now.err.items ≡ other.now.err.items) }
{
    one.status == other.status
        && one.out.as_slice() == other.out.as_slice()
        && one.err.as_slice() == other.err.as_slice()
}
