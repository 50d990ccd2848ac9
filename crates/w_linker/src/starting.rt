//! The store that the run of several files begins with (Core, execution, instantiation).
ghost use Rattle.std.specs.Prelude.{◌≡◌, ◌+◌, ◌≤◌, None, IfOk, length, map};
ghost use Rattle.w_rules.specs.Sound.{Sound};
ghost use Rattle.w_reduce.specs.Program.{Program};
ghost use Rattle.w_reduce.specs.Start as start;
ghost use Rattle.w_stands.specs.Values.{store_of};
ghost use Rattle.w_inst.specs.Instances.{StandsFor, SegmentsFrom};
ghost use Rattle.w_linker.specs.Segments.{sizes_of, element_count, data_count, parts_copied, copied_as, FileStarted, StartsAs, WentOn};

use crate::linking::LinkFault;
use std::alloc::{AllocError, Global};
use w_inst::{FirstStore, Imports, allocate, find_printers, start_datas, start_elements};
use w_reduce::Trap;
use w_rules::Checked;
use w_syntax::Module;
use w_tables::Store;
use w_types::Value;

/// How many segments a file has.
#[derive(Clone, Copy)]
pub(crate) struct Sizes {
    pub elements: usize,
    pub datas: usize,
}

/// How many segments each file has.
pub(crate) fn sizes_of(alloc: Global, modules: &[Checked]) -> Result<Vec<Sizes>, AllocError>
    ensures { IfOk result (λ sizes. sizes.items ≡ map sizes_of modules.now) }
{
    let mut sizes = Vec::new(alloc);
    for checked in modules {
        let module = checked.module();
        let elements = module.elements.len();
        let datas = module.datas.len();
        sizes.push(Sizes { elements, datas })?;
    }
    Ok(sizes)
}

// So many more.
fn counted(before: usize, count: usize) -> Result<usize, AllocError>
    ensures { IfOk result (λ n. n ≡ before + count) }
{
    before.checked_add(count).ok_or(AllocError)
}

/// The segments of the files before: their numbers go on from these.
#[derive(Clone, Copy)]
pub(crate) struct Places {
    pub elements: usize,
    pub datas: usize,
}

// Starts the active segments of one file, behind those of the files before: those of tables, then those of memories. It answers the trap
// where one passes an end.
fn start_file(
    alloc: Global,
    store: &mut Store,
    program: &Module,
    before: Places,
    sizes: Sizes,
    globals: &[Value],
    functions: usize,
) -> Result<Option<Trap>, AllocError>
    requires sound { Sound program.now }
    requires elements { before.elements + sizes.elements ≤ length program.now.elements }
    requires datas { before.datas + sizes.datas ≤ length program.now.datas }
    requires stands { StandsFor program.now globals.now functions store.old }
    requires segments { SegmentsFrom program.now before.elements store.old }
    ensures started { IfOk result (λ o. (p : Program) → p.source ≡ program.now → FileStarted p before.elements before.datas sizes (store_of store.old) o store.new) }
    ensures went_on { IfOk result (λ o. WentOn program.now globals.now functions (before.elements + sizes.elements) o store.new) }
{
    let (first, data) = (before.elements, before.datas);
    let end = counted(first, sizes.elements)?;
    let elements = &program.elements.as_slice()[first..end];
    if !start_elements(alloc, store, program, elements, first, globals, functions)? {
        return Ok(Some(Trap::TableOutOfBounds));
    }
    let end = counted(data, sizes.datas)?;
    let datas = &program.datas.as_slice()[data..end];
    if !start_datas(alloc, store, program, datas, data, globals, functions)? {
        return Ok(Some(Trap::MemoryOutOfBounds));
    }
    Ok(None)
}

// Starts the active segments of all files, file by file. It answers the first file of which one passes an end, and the trap.
fn start_files(
    alloc: Global,
    store: &mut Store,
    program: &Module,
    sizes: &[Sizes],
    globals: &[Value],
    functions: usize,
) -> Result<Option<(usize, Trap)>, AllocError>
    requires sound { Sound program.now }
    requires elements { element_count sizes.now ≡ length program.now.elements }
    requires datas { data_count sizes.now ≡ length program.now.datas }
    requires stands { StandsFor program.now globals.now functions store.old }
    requires segments { SegmentsFrom program.now 0 store.old }
    ensures { IfOk result (λ o. (p : Program) → p.source ≡ program.now → parts_copied p 0 0 0 sizes.now (store_of store.old) ≡ copied_as o store.new) }
{
    let mut before = Places {
        elements: 0,
        datas: 0,
    };
    for file in 0..sizes.len() {
        let own = sizes[file];
        if let Some(trap) = start_file(alloc, store, program, before, own, globals, functions)? {
            return Ok(Some((file, trap)));
        }
        before = Places {
            elements: counted(before.elements, own.elements)?,
            datas: counted(before.datas, own.datas)?,
        };
    }
    Ok(None)
}

/// The store that the run of a module begins with, whose segments are of files that have so many each; or why there is none.
pub(crate) fn first_store(
    alloc: Global,
    program: &Module,
    sizes: &[Sizes],
) -> Result<Store, LinkFault>
    requires within { start.exceeded program.now ≡ None }
    requires sound { Sound program.now }
    requires elements { element_count sizes.now ≡ length program.now.elements }
    requires datas { data_count sizes.now ≡ length program.now.datas }
    ensures { StartsAs program.now sizes.now result }
{
    let printers = match find_printers(alloc, program)? {
        Imports::All(printers) => printers,
        Imports::Missing(import) => return Err(LinkFault::Import(0, import)),
    };
    let FirstStore {
        mut store,
        functions,
        globals,
    } = allocate(alloc, program, printers.as_slice())?;
    let globals = globals.as_slice();
    match start_files(alloc, &mut store, program, sizes, globals, functions)? {
        Some((file, trap)) => Err(LinkFault::Trap(file, trap)),
        None => Ok(store),
    }
}
