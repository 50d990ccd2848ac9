//! Active segments, in order (Core, execution, instantiation). What is started is a part of a program's segments: all of them, or those of
//! one file of several.
ghost use Rattle.std.specs.Prelude.{◌≡◌, ◌+◌, Some, IfOk, length};
ghost use Rattle.w_syntax.specs.declared.module.Data.{Data as TheData};
ghost use Rattle.w_syntax.specs.declared.module.Elem.{Elem as TheElem};
ghost use Rattle.w_rules.specs.Sound.{Sound};
ghost use Rattle.w_reduce.specs.Program.{Program};
ghost use Rattle.w_reduce.specs.Start as start;
ghost use Rattle.w_stands.specs.Values.{store_of};
ghost use Rattle.w_inst.specs.Segments.{left_by_copy, IfWent};
ghost use Rattle.w_inst.specs.Instances.{StandsFor, SegmentsFrom, IsPart};

use crate::segments::{start_data, start_element};
use std::alloc::{AllocError, Global};
use w_syntax::{Data, Elem, Module};
use w_tables::Store;
use w_types::Value;

/// Starts some element segments in order, the first of which has this number among all of the program, and answers whether none passed the
/// end of its table. It fails only for want of memory.
pub fn start_elements(
    alloc: Global,
    store: &mut Store,
    program: &Module,
    elements: &[Elem],
    first: usize,
    globals: &[Value],
    functions: usize,
) -> Result<bool, AllocError>
    requires sound { Sound program.now }
    requires part { IsPart first elements.now program.now.elements }
    requires stands { StandsFor program.now globals.now functions store.old }
    requires segments { SegmentsFrom program.now first store.old }
    ensures started { IfOk result (λ went. (p : Program)
        → start.in_order (λ s y (e : TheElem). start.element_started p s y e.mode) (Some (store_of store.old)) first elements.now ≡ left_by_copy went store.new) }
    ensures stands { IfOk result (λ went. IfWent went (StandsFor program.now globals.now functions store.new)) }
    ensures segments { IfOk result (λ went. IfWent went (SegmentsFrom program.now (first + length elements.now) store.new)) }
{
    let tables = program.tables.len();
    for index in 0..elements.len() {
        let Ok(segment) = u32::try_from(first.saturating_add(index)) else {
            return Err(AllocError);
        };
        let elem = &elements[index];
        if !start_element(alloc, store, elem, segment, tables, globals, functions)? {
            return Ok(false);
        }
    }
    Ok(true)
}

/// Starts some data segments in order, the first of which has this number among all of the program, and answers whether none passed the
/// end of its memory. It fails only for want of memory.
pub fn start_datas(
    alloc: Global,
    store: &mut Store,
    program: &Module,
    datas: &[Data],
    first: usize,
    globals: &[Value],
    functions: usize,
) -> Result<bool, AllocError>
    requires sound { Sound program.now }
    requires part { IsPart first datas.now program.now.datas }
    requires stands { StandsFor program.now globals.now functions store.old }
    ensures started { IfOk result (λ went. (p : Program)
        → start.in_order (λ s y (d : TheData). start.data_started p s y d.mode) (Some (store_of store.old)) first datas.now ≡ left_by_copy went store.new) }
    ensures stands { IfOk result (λ went. IfWent went (StandsFor program.now globals.now functions store.new)) }
    ensures elements { IfOk result (λ went. IfWent went (store.new.elems ≡ store.old.elems)) }
{
    let memories = program.memories.len();
    for index in 0..datas.len() {
        let Ok(segment) = u32::try_from(first.saturating_add(index)) else {
            return Err(AllocError);
        };
        let mode = &datas[index].mode;
        if !start_data(alloc, store, mode, segment, memories, globals, functions)? {
            return Ok(false);
        }
    }
    Ok(true)
}
