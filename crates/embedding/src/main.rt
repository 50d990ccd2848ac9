//! The engine in another program, in two ways: the whole program as one call over files and sinks in memory, and its parts one after
//! another. `docs/EMBEDDING.md` goes through it.
#![tactic(auto)]

mod by_command;
mod by_parts;

use anyhow::Error;

fn main(rt: HostRuntime) -> Result<(), Error> {
    by_command::run_script(&rt, rt.alloc())?;
    by_parts::run_module(&rt, rt.alloc())
}
