//! The instance of a file, by the addresses of its imports (Core, execution, module instances).
ghost use Rattle.std.specs.Prelude.{◌≡◌, ◌++◌, IfOk, OnOk, map};
ghost use Rattle.std.specs.List.{range_with_len};
ghost use Rattle.w_linked.specs.Linked as linked;
ghost use Rattle.w_placing.specs.Addresses.{stands, numbers_of};
ghost use Rattle.w_placing.specs.Counting.{counts};

use crate::address::{Address, AddressKind, push_numbers};
use crate::counting::{Before, counted};
use std::alloc::{AllocError, Global};
use w_resolve::ModuleInstance;
use w_syntax::Module;

// Adds so many numbers, counted on from one.
fn push_range(before: u32, count: usize, all: &mut Vec<u32>) -> Result<(), AllocError>
    ensures { OnOk result (all.new.items ≡ all.old.items ++ range_with_len before count) }
{
    for index in 0..count {
        all.push(counted(before, index)?)?;
    }
    Ok(())
}

// The addresses of one kind of an instance: those of its imports, and behind them its own.
fn addresses(
    alloc: Global,
    found: &[Address],
    kind: AddressKind,
    before: u32,
    own: usize,
) -> Result<Vec<u32>, AllocError>
    ensures { IfOk result (λ all. all.items ≡ numbers_of kind found.now ++ range_with_len before own) }
{
    let mut all = Vec::new(alloc);
    push_numbers(found, kind, &mut all)?;
    push_range(before, own, &mut all)?;
    Ok(all)
}

/// The instance of a file, by the addresses of its imports: behind them stand its own definitions (Core, execution, module
/// instances).
pub(crate) fn instance_of(
    alloc: Global,
    before: &Before,
    found: &[Address],
    module: &Module,
) -> Result<ModuleInstance, AllocError>
    ensures { IfOk result (λ i. i ≡ linked.instance_of (counts before.now) (map stands found.now) module.now) }
{
    let functions = module.functions.len();
    let tables = module.tables.len();
    let memories = module.memories.len();
    let globals = module.globals.len();
    let tags = module.tags.len();
    Ok(ModuleInstance {
        types: before.types,
        functions: addresses(
            alloc,
            found,
            AddressKind::Function,
            before.functions,
            functions,
        )?,
        tables: addresses(alloc, found, AddressKind::Table, before.tables, tables)?,
        memories: addresses(alloc, found, AddressKind::Memory, before.memories, memories)?,
        globals: addresses(alloc, found, AddressKind::Global, before.globals, globals)?,
        tags: addresses(alloc, found, AddressKind::Tag, before.tags, tags)?,
        elements: before.elements,
        datas: before.datas,
    })
}
