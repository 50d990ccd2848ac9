//! Handles.
ghost use Rattle.std.specs.Prelude.{◌≡◌, Option, Some, None};
ghost use Rattle.std.specs.Option.{option_map};
ghost use Rattle.std.specs.Coded.{coded_option};
ghost use Rattle.handles.specs.declared.held_run.HeldRun.{HeldRun as TheHeldRun};
ghost use Rattle.handles.specs.contracts.held_run.HeldRun as the_held_run;

use crate::held_run::HeldRun;
use crate::loose::Loose;
use std::alloc::Global;
use std::marker::Model;
use std::{mem, ptr};

/// A run, or none, in memory that C holds. It has no drop: C ends it. Memory whose bytes are all 0 holds none.
#[repr(C)]
pub struct Handle {
    at: *mut u8,
    held: bool,
    pub ghost run: { Option TheHeldRun } by { coded_option the_held_run.the_row.coded },
}

impl Model for Handle {
    ghost use Rattle.handles.specs.Owned.{marked_box};
    ghost use Rattle.handles.specs.contracts.held_run.HeldRun.{the_row};

    ghost also_owns = { λ h. marked_box the_row h.held h.at h.run };
}

// A handle that holds none.
fn empty() -> Handle
    ensures { result.run ≡ None }
{
    Handle {
        at: ptr::null_mut(),
        held: false,
    }
}

// A handle that holds a run.
fn holding(run: Loose<HeldRun>) -> Handle
    ensures { result.run ≡ Some run.value }
{
    let Loose { at } = run;
    Handle {
        at: at.cast::<u8>(),
        held: true,
    }
}

// The run that a handle holds.
fn held(handle: Handle) -> Option<Loose<HeldRun>>
    ensures { handle.run ≡ option_map (λ l. l.value) result }
{
    let Handle { at, held } = handle;
    if held {
        Some(Loose {
            at: at.cast::<HeldRun>(),
        })
    } else {
        None
    }
}

/// Takes the run that a handle holds.
pub(crate) fn take(alloc: Global, handle: &mut Handle) -> Option<Box<HeldRun>>
    ensures held { handle.old.run ≡ option_map (λ b. b.value) result }
    ensures empty { handle.new.run ≡ None }
{
    match held(mem::replace(handle, empty())) {
        Some(run) => Some(run.into_box(alloc)),
        None => None,
    }
}

/// Gives a handle a run. What it held is let go.
pub(crate) fn put(alloc: Global, handle: &mut Handle, run: Box<HeldRun>)
    ensures { handle.new.run ≡ Some run.value }
{
    let full = holding(Loose::of(run));
    if let Some(old) = held(mem::replace(handle, full)) {
        drop(old.into_box(alloc));
    }
}
