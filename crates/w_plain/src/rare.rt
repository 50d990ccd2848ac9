//! Rarer instructions, which print nothing: those on tables and references, and those on memory but for loads and stores.
ghost use Rattle.std.specs.Prelude.{◌≡◌, true};
ghost use Rattle.w_syntax.specs.Packed.{unpacked};
ghost use Rattle.w_stands.specs.Steps.{MovesAt};
ghost use Rattle.w_plain.specs.Commonness.{is_rare};
ghost use Rattle.w_plain.specs.Stepped.{HasStepped};

use crate::families::{in_memory, in_table};
use crate::values::reference;
use std::alloc::AllocError;
use w_segment::Stack;
use w_stands::Did;
use w_syntax::{Module, PackedInstr};
use w_tables::Store;

/// One reduction at a rarer instruction, as a body keeps it. A function that is entered at each step writes zeros over what it keeps in
/// memory, for all of its arms: so what these need there is kept by a function of its own.
#[inline(never)]
pub(crate) fn step_rare(
    program: &Module,
    store: &mut Store,
    stack: &mut Stack,
    packed: &PackedInstr,
) -> Result<Did, AllocError>
    requires rare { is_rare packed.now ≡ true }
    requires moves { MovesAt (unpacked packed.now) program.now store.old stack.old }
    ensures step { HasStepped result program.now store.old stack.old store.new stack.new }
{
    match packed {
        PackedInstr::Table(operation) => in_table(program, store, stack, *operation),
        PackedInstr::Memory(operation) => in_memory(program, store, stack, operation.whole()),
        PackedInstr::Reference(operation) => Ok(reference(program, store, stack, *operation)),
        _ => unreachable!(),
    }
}
