//! Several files made one program (Core, execution, instantiation).
ghost use Rattle.std.specs.Prelude.{◌≡◌, Some, None, IfOk};
ghost use Rattle.w_canon.specs.IsClassesOf.{IsClassesOf};
ghost use Rattle.w_linked.specs.Definitions as linked;
ghost use Rattle.w_linked.specs.Starting as starting;
ghost use Rattle.w_placing.specs.Tests.{tests_of};
ghost use Rattle.w_machine.specs.Beginning.{BeginsAt};
ghost use Rattle.w_linker.specs.declared.linking.LinkFault.TheVariants.{OutOfMemory};
ghost use Rattle.w_linker.specs.Files.{AreLinked};
ghost use Rattle.w_linker.specs.Links.{Links, LinksAs};

use crate::entries::{all_starts, first_start, in_last, last_entry};
use crate::limits::first_exceeded;
use crate::program::make_program;
use crate::starting::{first_store, sizes_of};
use std::alloc::{AllocError, Global};
use thiserror::Error;
use w_canon::Classes;
use w_placing::{Definitions, Placing, define, place};
use w_reduce::{StartLimit, Trap};
use w_resolve::ModuleInstance;
use w_rules::{Checked, Runnable};
use w_tables::Store;

/// Why several files have no run. A file is told by its number, of which the first is 0.
#[derive(Clone, Copy, Debug, PartialEq, Eq, Error)]
pub enum LinkFault {
    /// No function of type `[]` to integers is exported as main by the last file.
    #[error("there is no entry")]
    NoEntry,
    /// The import of this index of this file names nothing that fits it.
    #[error("nothing is there for import {1} of file {0}")]
    Import(usize, usize),
    /// This file asks for more than this limit allows.
    #[error("a memory or a table of file {0} is too large at first")]
    Limit(usize, StartLimit),
    /// An active segment of this file passes the end of its table or its memory.
    #[error("an active segment of file {0} passes an end")]
    Trap(usize, Trap),
    #[error("out of memory")]
    OutOfMemory,
}

impl From<AllocError> for LinkFault {
    ghost from_gives = { λ _ e. e ≡ OutOfMemory };

    fn from(_: AllocError) -> Self {
        LinkFault::OutOfMemory
    }
}

/// Several files made one program, with where its run begins.
#[derive(Drop)]
pub struct Linked {
    /// The module that the files make: each index stands there as its address.
    pub program: Runnable,
    /// The store that its run begins with.
    pub store: Store,
    /// The addresses of the functions that run before main, in order.
    pub starts: Vec<u32>,
    /// The address of main.
    pub main: u32,
}

// Makes the program of files whose imports were found, and the store that its run begins with.
fn link_placed(
    alloc: Global,
    modules: Vec<Checked>,
    instances: Vec<ModuleInstance>,
    main: u32,
    classes: Classes,
) -> Result<Linked, LinkFault>
    requires linked { AreLinked classes modules.items instances.items }
    requires entry { starting.last_entry modules.items ≡ Some main }
    requires within { starting.first_exceeded 0 modules.items ≡ None }
    ensures links { LinksAs (tests_of classes) modules.items result }
    ensures types { IfOk result (λ l. l.program.types ≡ (linked.definitions modules.items).types) }
    ensures begins { IfOk result (λ l. BeginsAt l.program l.store l.starts.items l.main) }
{
    let sizes = sizes_of(alloc, modules.as_slice())?;
    let starts = all_starts(alloc, modules.as_slice(), instances.as_slice())?;
    let start = first_start(starts.as_slice());
    let main = in_last(instances.as_slice(), main);
    let program = make_program(alloc, modules, instances.as_slice(), start, classes)?;
    let store = first_store(alloc, program.module(), sizes.as_slice())?;
    Ok(Linked {
        program,
        store,
        starts,
        main,
    })
}

// Links files by what they define and the classes of their types.
fn link_defined(
    alloc: Global,
    modules: Vec<Checked>,
    definitions: Definitions,
    classes: Classes,
) -> Result<Linked, LinkFault>
    requires defined { definitions ≡ linked.definitions modules.items }
    requires classes { IsClassesOf definitions.types classes }
    ensures links { LinksAs (tests_of classes) modules.items result }
    ensures types { IfOk result (λ l. l.program.types ≡ (linked.definitions modules.items).types) }
    ensures begins { IfOk result (λ l. BeginsAt l.program l.store l.starts.items l.main) }
{
    let Some(main) = last_entry(modules.as_slice()) else {
        return Err(LinkFault::NoEntry);
    };
    let instances = match place(alloc, modules.as_slice(), &definitions, &classes)? {
        Placing::Placed(instances) => instances,
        Placing::NoImport(file, import) => return Err(LinkFault::Import(file, import)),
    };
    drop(definitions);
    if let Some((file, limit)) = first_exceeded(modules.as_slice()) {
        return Err(LinkFault::Limit(file, limit));
    }
    link_placed(alloc, modules, instances, main, classes)
}

/// Makes one program of several files, and the store that its run begins with; or tells the first reason why there is none: the entry of
/// the last file, an import, a limit, or a segment, file by file, those of tables before those of memories (Core, execution,
/// instantiation).
pub fn link(alloc: Global, modules: Vec<Checked>) -> Result<Linked, LinkFault>
    ensures links { Links modules.items result }
    ensures types { IfOk result (λ l. l.program.types ≡ (linked.definitions modules.items).types) }
    ensures begins { IfOk result (λ l. BeginsAt l.program l.store l.starts.items l.main) }
{
    let definitions = define(alloc, modules.as_slice())?;
    let classes = Classes::of_groups(alloc, definitions.types.as_slice())?;
    link_defined(alloc, modules, definitions, classes)
}
