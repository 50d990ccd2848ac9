//! The begin of a run.
ghost use Rattle.std.specs.Prelude.{◌≡◌, IfOk, IfErr, [], None, Some};
ghost use Rattle.replies.specs.Stop.{Refuses};
ghost use Rattle.replies.specs.declared.status.Status.TheVariants.{OutOfMemory as TheOutOfMemory};
ghost use Rattle.handles.specs.HeldRuns.{BeginGives, BeginsBy, BeginsRunOfBytes, HasNoRunOnBytes, Holds};

use crate::handle::{Handle, put, take};
use crate::held_run::HeldRun;
use handing::hand_stop;
use intake::{INPUT_LIMIT, judge_bytes};
use replies::{Origin, Status, Stop, refuse};
use runs::begin_run;
use std::alloc::Global;
use w_machine::Machine;

// The machine at the begin of the run of the module that bytes are a spelling of, or why they give none.
fn begun(alloc: Global, bytes: &[u8]) -> Result<Machine, Stop>
    ensures begins { IfOk result (BeginsRunOfBytes bytes.now) }
    ensures refused { IfErr result (Refuses (HasNoRunOnBytes bytes.now)) }
{
    if bytes.len() > INPUT_LIMIT {
        return Err(refuse(alloc, b"limit input\n", Status::Limit));
    }
    let checked = judge_bytes(alloc, bytes)?;
    begin_run(alloc, Origin::Module, checked)
}

// Begins a run of bytes in a handle that holds none.
fn begin_in_empty(
    alloc: Global,
    bytes: &[u8],
    handle: &mut Handle,
    err: &mut [u8],
    err_length: &mut u64,
) -> Status
    requires { handle.old.run ≡ None }
    ensures { BeginsBy bytes.now result handle.new.run err.old err.new err_length.new }
{
    *err_length = 0;
    match begun(alloc, bytes) {
        Ok(machine) => match HeldRun::of(alloc, machine) {
            Ok(run) => {
                put(alloc, handle, run);
                Status::Done
            }
            Err(_) => Status::OutOfMemory,
        },
        Err(stop) => hand_stop(alloc, stop, err, err_length),
    }
}

/// Begins a run of the module that bytes are a spelling of, in a handle that holds none. What the command says of bytes that give no run
/// goes to err, and then the handle holds none. `None`: it holds a run, which stays.
pub fn begin(
    alloc: Global,
    bytes: &[u8],
    handle: &mut Handle,
    err: &mut [u8],
    err_length: &mut u64,
) -> Option<Status>
    ensures { BeginGives bytes.now handle.old.run result handle.new.run err.old err.new err_length.new }
{
    match take(alloc, handle) {
        Some(run) => {
            *err_length = 0;
            put(alloc, handle, run);
            None
        }
        None => Some(begin_in_empty(alloc, bytes, handle, err, err_length)),
    }
}
