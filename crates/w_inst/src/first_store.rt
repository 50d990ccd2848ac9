//! The store that a run begins with (Core, execution, instantiation).
ghost use Rattle.std.specs.Prelude.{◌≡◌, ◌+◌, IfOk, OnOk, None, length};
ghost use Rattle.w_tables.specs.Operations.{empty};
ghost use Rattle.w_rules.specs.Sound.{Sound};
ghost use Rattle.w_reduce.specs.Program.{Program};
ghost use Rattle.w_reduce.specs.Start as start;
ghost use Rattle.w_stands.specs.Values.{vals, store_of};
ghost use Rattle.w_inst.specs.Instances.{StandsFor, SegmentsFrom};

use crate::allocation::{add_datas, add_memories, add_own, add_printers, add_tags};
use crate::values::{add_elements, add_globals, add_tables, global_values};
use std::alloc::{AllocError, Global};
use w_syntax::Module;
use w_tables::{Printer, Store};
use w_types::Value;

/// The store that a run begins with, before active segments are copied, and what constant expressions see of it.
#[derive(Drop)]
pub struct FirstStore {
    pub store: Store,
    /// How many functions it has.
    pub functions: usize,
    pub globals: Vec<Value>,
}

// Adds what asks for no value.
fn add_bare(
    alloc: Global,
    store: &mut Store,
    program: &Module,
    printers: &[Printer],
) -> Result<(), AllocError>
    requires within { start.exceeded program.now ≡ None }
    requires sound { Sound program.now }
    requires nothing { store.old ≡ empty }
    ensures bare { OnOk result (store_of store.new ≡ start.bare program.now printers.now) }
{
    add_printers(store, printers)?;
    add_own(store, program.functions.len())?;
    add_memories(alloc, store, program)?;
    add_tags(store, program.tags.as_slice())?;
    add_datas(alloc, store, program.datas.as_slice())
}

// Adds all that a module defines, behind the functions of the host: globals of these values, and what sees so many functions.
fn add_all(
    alloc: Global,
    store: &mut Store,
    program: &Module,
    printers: &[Printer],
    globals: &[Value],
    functions: usize,
) -> Result<(), AllocError>
    requires within { start.exceeded program.now ≡ None }
    requires sound { Sound program.now }
    requires nothing { store.old ≡ empty }
    requires count { functions ≡ length printers.now + length program.now.functions }
    requires values { (p : Program) → start.with_globals p (start.bare program.now printers.now)
        program.now.globals ≡ record (start.bare program.now printers.now) { globals = vals globals.now } }
    ensures allocated { OnOk result ((p : Program) → p.source ≡ program.now → store_of store.new ≡ start.allocated p printers.now) }
    ensures stands { OnOk result (StandsFor program.now globals.now functions store.new) }
    ensures segments { OnOk result (SegmentsFrom program.now 0 store.new) }
{
    add_bare(alloc, store, program, printers)?;
    add_globals(store, globals)?;
    add_tables(alloc, store, program, globals, functions)?;
    add_elements(alloc, store, program, globals, functions)?;
    Ok(())
}

/// Allocates what a module defines, behind the functions of the host that it imports (Core, execution, allocation of modules). It fails
/// only for want of memory.
pub fn allocate(
    alloc: Global,
    program: &Module,
    printers: &[Printer],
) -> Result<FirstStore, AllocError>
    requires within { start.exceeded program.now ≡ None }
    requires sound { Sound program.now }
    ensures allocated { IfOk result (λ f. (p : Program) → p.source ≡ program.now → store_of f.store ≡ start.allocated p printers.now) }
    ensures stands { IfOk result (λ f. StandsFor program.now f.globals.items f.functions f.store) }
    ensures segments { IfOk result (λ f. SegmentsFrom program.now 0 f.store) }
{
    let Some(functions) = printers.len().checked_add(program.functions.len()) else {
        return Err(AllocError);
    };
    let globals = global_values(alloc, program, functions)?;
    let mut store = Store::new(alloc)?;
    add_all(
        alloc,
        &mut store,
        program,
        printers,
        globals.as_slice(),
        functions,
    )?;
    Ok(FirstStore {
        store,
        functions,
        globals,
    })
}
