//! Runs that a caller steps.
ghost use Rattle.handles.specs.ByCode.{BeginsByCode, CountsByCode, EndsByCode, ReadsByCode, ResultsByCode, StepsByCode};

use crate::TOO_MANY_STEPS;
use handles::{Handle, NoStep, begin, count, end, read, results, step};
use std::alloc::Global;

/// The status of a call on a handle that holds no run.
const NO_RUN: u32 = 15;

/// The status of a begin in a handle that holds a run.
const HAS_RUN: u32 = 16;

/// Begins a run of a module.
#[unsafe(no_mangle)]
pub extern "C" fn stackwasm_begin(
    alloc: Global,
    bytes: &[u8],
    handle: &mut Handle,
    err: &mut [u8],
    err_length: &mut u64,
) -> u32
    ensures { BeginsByCode bytes.now handle.old.run result handle.new.run err.old err.new err_length.new }
{
    match begin(alloc, bytes, handle, err, err_length) {
        Some(status) => u32::from(status.code()),
        None => HAS_RUN,
    }
}

/// Lets a run take so many reductions at most.
#[unsafe(no_mangle)]
pub extern "C" fn stackwasm_step(
    alloc: Global,
    handle: &mut Handle,
    steps: u64,
    err: &mut [u8],
    err_length: &mut u64,
) -> u32
    ensures { StepsByCode handle.old.run steps result handle.new.run err.old err.new err_length.new }
{
    match step(alloc, handle, steps, err, err_length) {
        Ok(status) => u32::from(status.code()),
        Err(NoStep::NoRun) => NO_RUN,
        Err(NoStep::TooManySteps) => TOO_MANY_STEPS,
    }
}

/// Reads what a run printed and wasn't read.
#[unsafe(no_mangle)]
pub extern "C" fn stackwasm_read(
    alloc: Global,
    handle: &mut Handle,
    out: &mut [u8],
    count: &mut u64,
) -> u32
    ensures { ReadsByCode handle.old.run result handle.new.run out.old out.new count.new }
{
    match read(alloc, handle, out) {
        Some(read) => {
            *count = read as u64;
            0
        }
        None => {
            *count = 0;
            NO_RUN
        }
    }
}

/// The results of a run that has ended.
#[unsafe(no_mangle)]
pub extern "C" fn stackwasm_results(
    alloc: Global,
    handle: &mut Handle,
    out: &mut [u8],
    out_length: &mut u64,
) -> u32
    ensures { ResultsByCode handle.old.run result handle.new.run out.old out.new out_length.new }
{
    match results(alloc, handle, out, out_length) {
        Some(status) => u32::from(status.code()),
        None => NO_RUN,
    }
}

/// How many reductions a run took, and how many continuations it made, consumed, and has left.
#[unsafe(no_mangle)]
pub extern "C" fn stackwasm_counts(
    alloc: Global,
    handle: &mut Handle,
    taken: &mut u64,
    made: &mut u64,
    consumed: &mut u64,
    live: &mut u64,
) -> u32
    ensures { CountsByCode handle.old.run result handle.new.run taken.new made.new consumed.new live.new }
{
    match count(alloc, handle) {
        Some(counts) => {
            *taken = counts.taken;
            *made = counts.made;
            *consumed = counts.consumed;
            *live = counts.live;
            0
        }
        None => {
            *taken = 0;
            *made = 0;
            *consumed = 0;
            *live = 0;
            NO_RUN
        }
    }
}

/// Lets a run go.
#[unsafe(no_mangle)]
pub extern "C" fn stackwasm_end(alloc: Global, handle: &mut Handle) -> u32
    ensures { EndsByCode handle.old.run result handle.new.run }
{
    if end(alloc, handle) { 0 } else { NO_RUN }
}
