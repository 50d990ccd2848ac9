//! The program's entry: the words, the machine's files and streams, and the exit code.
#![tactic(auto)]

use drive::{Status, command};
use std::alloc::Global;
use std::process::ExitCode;
use std::{env, io};
use w_outside::{HostInputs, HostSink};

// The words of the command line. Where one is no text there are none, which is no command.
fn words(rt: &HostRuntime, alloc: Global) -> io::Result<Vec<String>> {
    match env::args(rt) {
        Ok(args) => {
            // one by one: where their number finds no room, `collect` goes on without
            let mut words = Vec::new(alloc);
            for word in args {
                words.push(word)?;
            }
            Ok(words)
        }
        Err(error) if error.kind() == io::ErrorKind::InvalidData => Ok(Vec::new(alloc)),
        Err(error) => Err(error),
    }
}

fn main(rt: HostRuntime) -> ExitCode {
    let alloc = rt.alloc();
    let mut files = HostInputs::new(&rt);
    let mut out = HostSink::new(rt.stdout());
    let mut err = HostSink::new(rt.stderr());
    let status = match words(&rt, alloc) {
        Ok(words) => command(alloc, words.as_slice(), &mut files, &mut out, &mut err),
        Err(_) => Status::OutOfMemory,
    };
    ExitCode::from(status.code())
}
