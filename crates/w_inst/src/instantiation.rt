//! Instantiation (Core, execution, instantiation).
ghost use Rattle.std.specs.Prelude.{◌≡◌};
ghost use Rattle.w_reduce.specs.Program.{Program};
ghost use Rattle.w_inst.specs.declared.instantiation.InstFault.TheVariants.{OutOfMemory};
ghost use Rattle.w_inst.specs.Instances.{BeginsAs};

use crate::exports::entry;
use crate::first_store::{FirstStore, allocate};
use crate::limits::exceeded;
use crate::printers::{Imports, find_printers};
use crate::starting::{start_datas, start_elements};
use std::alloc::{AllocError, Global};
use thiserror::Error;
use w_reduce::{StartLimit, Trap};
use w_rules::Checked;
use w_tables::Store;

/// Why a module has no run.
#[derive(Clone, Copy, Debug, PartialEq, Eq, Error)]
pub enum InstFault {
    /// No function of the host is there for the import of this index.
    #[error("no function of the host is there for import {0}")]
    Import(usize),
    /// No function of type `[]` to integers is exported as main.
    #[error("there is no entry")]
    NoEntry,
    /// The module asks for more than this limit allows.
    #[error("a memory or a table is too large at first")]
    Limit(StartLimit),
    /// An active segment passes the end of its table or its memory.
    #[error("an active segment passes an end")]
    Trap(Trap),
    #[error("out of memory")]
    OutOfMemory,
}

impl From<AllocError> for InstFault {
    ghost from_gives = { λ _ e. e ≡ OutOfMemory };

    fn from(_: AllocError) -> Self {
        InstFault::OutOfMemory
    }
}

/// What a run begins with: the store, and the function that is exported as main.
#[derive(Drop)]
pub struct Instance {
    pub store: Store,
    pub main: u32,
}

/// What the run of a module begins with, or the first reason why it has none: an import, the entry, a limit, or a segment, those of
/// tables before those of memories (Core, execution, instantiation).
pub fn instantiate(alloc: Global, checked: &Checked) -> Result<Instance, InstFault>
    ensures begins { (p : Program) → p.source ≡ checked.now → BeginsAs p result }
{
    let program = checked.runnable().module();
    let printers = match find_printers(alloc, program)? {
        Imports::All(printers) => printers,
        Imports::Missing(import) => return Err(InstFault::Import(import)),
    };
    let Some(main) = entry(program) else {
        return Err(InstFault::NoEntry);
    };
    if let Some(limit) = exceeded(program) {
        return Err(InstFault::Limit(limit));
    }
    let FirstStore {
        mut store,
        functions,
        globals,
    } = allocate(alloc, program, printers.as_slice())?;
    let globals = globals.as_slice();
    let elements = program.elements.as_slice();
    let datas = program.datas.as_slice();
    if !start_elements(alloc, &mut store, program, elements, 0, globals, functions)? {
        return Err(InstFault::Trap(Trap::TableOutOfBounds));
    }
    if !start_datas(alloc, &mut store, program, datas, 0, globals, functions)? {
        return Err(InstFault::Trap(Trap::MemoryOutOfBounds));
    }
    Ok(Instance { store, main })
}
