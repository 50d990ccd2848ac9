//! Invoking a function of the module by an instruction (Core, execution, function calls).
ghost use Rattle.std.specs.Prelude.{◌≡◌, [], OnErr, OnOk, slice_get};
ghost use Rattle.w_tables.specs.declared.entries.FuncEntry.TheVariants as entry;
ghost use Rattle.w_stands.specs.Keeps.{Keeps};
ghost use Rattle.w_stands.specs.Room.{Roomier};
ghost use Rattle.w_stands.specs.Steps.{Follows};
ghost use Rattle.w_stands.specs.declared.did.Did.TheVariants as did;
ghost use Rattle.w_call_ops.specs.Calling.{Calls, Invokes};

use crate::entering::enter;
use crate::known_functions::Callees;
use std::alloc::AllocError;
use w_segment::Stack;
use w_tables::Store;

/// Invokes the function of the module that an instruction calls, by its address and its index among the module's own, once so many
/// operands are gone. It fails only when out of memory, or where there is no room and none may be asked for, and then the stack is as it was
/// but for room.
#[inline(always)]
pub fn call_own(
    program: &Callees,
    store: &Store,
    stack: &mut Stack,
    address: u32,
    function: u32,
    popped: usize,
    may_grow: bool,
) -> Result<(), AllocError>
    requires call { Calls address popped program.now store.now stack.old }
    requires own { slice_get store.now.functions address ≡ Some (entry.Own function) }
    ensures goes { OnOk result (Follows did.Went program.now [] store.now stack.old store.now stack.new) }
    ensures keeps { OnOk result (Keeps stack.old stack.new) }
    ensures err { OnErr result (Roomier stack.old stack.new) }
{
    let _store = store;
    let back = stack.place() + 1;
    enter(program, stack, function, popped, back, may_grow)
}

/// Invokes the function of the module that a fresh segment begins with, by its index among the module's own. It fails only when out of
/// memory, and then the stack is as it was but for room.
#[inline(always)]
pub fn invoke_own(
    program: &Callees,
    store: &Store,
    stack: &mut Stack,
    function: u32,
) -> Result<(), AllocError>
    requires invoke { Invokes program.now store.now stack.old }
    requires own { slice_get store.now.functions stack.old.func ≡ Some (entry.Own function) }
    ensures goes { OnOk result (Follows did.Went program.now [] store.now stack.old store.now stack.new) }
    ensures keeps { OnOk result (Keeps stack.old stack.new) }
    ensures err { OnErr result (Roomier stack.old stack.new) }
{
    let _store = store;
    enter(program, stack, function, 0, 0, true)
}
