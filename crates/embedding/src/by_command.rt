//! The whole program as one call.

use anyhow::Error;
use drive::command;
use std::alloc::Global;
use w_outside::{SureInputs, SureSink};

// A script that prints, and gives a number.
static SCRIPT: &[u8] = b"fn main() { print 6; return 6 * 7; }";

/// Runs a script that stands in memory, and prints what it wrote.
pub(crate) fn run_script(rt: &impl Print, alloc: Global) -> Result<(), Error> {
    let file = (String::from_str(alloc, "a.script")?, SCRIPT.to_vec(alloc)?);
    let mut files = SureInputs::new(alloc, vec![in alloc; file]?)?;
    let mut out = SureSink::new(alloc)?;
    let mut err = SureSink::new(alloc)?;
    let mut words = Vec::new(alloc);
    for word in ["stackwasm", "run", "a.script"] {
        words.push(String::from_str(alloc, word)?)?;
    }
    let status = command(alloc, words.as_slice(), &mut files, &mut out, &mut err);
    println!(rt;
        "status {}, {} bytes on err",
        status.code(),
        err.held().len()
    )?;
    print!(rt; "{}", str::from_utf8(out.held())?)?;
    Ok(())
}
