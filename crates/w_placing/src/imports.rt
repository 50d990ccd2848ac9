//! What the imports of a file stand for (Core, execution, instantiation).
ghost use Rattle.std.specs.Prelude.{◌≡◌, IfOk, List, ℕ, option_map};
ghost use Rattle.w_canon.specs.IsClassesOf.{IsClassesOf};
ghost use Rattle.w_linked.specs.Imports as linked;
ghost use Rattle.w_placing.specs.Files.{AreFiles};
ghost use Rattle.w_placing.specs.Found.{counted_as, counted_of, imported_of};
ghost use Rattle.w_placing.specs.Tests.{tests_of};

use crate::address::Address;
use crate::counting::Before;
use crate::definitions::Definitions;
use crate::exports::{File, exported};
use crate::fitting::fits;
use std::alloc::{AllocError, Global};
use w_canon::Classes;
use w_inst::printer_of;
use w_resolve::shifted;
use w_syntax::{Import, Module};

/// What an import stands for, and how many functions of the host are named then.
#[derive(Clone, Copy)]
pub(crate) struct Counted {
    pub address: Address,
    pub printers: u32,
}

/// What all imports of a file stand for, and how many functions of the host are named then, or the number of the first import for which
/// there is nothing.
#[derive(Drop)]
pub(crate) enum Imported {
    All(Vec<Address>, u32),
    Missing(usize),
}

// The export that an import names, where it fits.
fn fitting_export<'a>(
    definitions: &Definitions,
    classes: &Classes,
    files: &[File<'a>],
    n: u32,
    import: &'a Import,
) -> Result<Option<Address>, AllocError>
    requires classes { IsClassesOf definitions.now.types classes.now }
    ensures { IfOk result (λ o. (ps : List linked.Placed) (k : ℕ) → AreFiles 0 files.now ps
        → option_map (counted_as k) o ≡ linked.of_export (tests_of classes.now) definitions.now n import.now.kind k (linked.exported 0 ps import.now.module_name import.now.item_name)) }
{
    let (module_name, item_name) = (import.module_name.as_str(), import.item_name.as_str());
    let Some(address) = exported(files, module_name, item_name) else {
        return Ok(None);
    };
    if fits(definitions, classes, n, import.kind, address)? {
        Ok(Some(address))
    } else {
        Ok(None)
    }
}

// What an import stands for: the next function of the host, or an export of an earlier file that fits.
fn import_address<'a>(
    definitions: &Definitions,
    classes: &Classes,
    files: &[File<'a>],
    before: &Before,
    printers: u32,
    module: &'a Module,
    import: &'a Import,
) -> Result<Option<Counted>, AllocError>
    requires classes { IsClassesOf definitions.now.types classes.now }
    ensures { IfOk result (λ o. (ps : List linked.Placed) → AreFiles 0 files.now ps
        → option_map counted_of o ≡ linked.import_address (tests_of classes.now) definitions.now ps module.now before.now.types printers import.now) }
{
    if printer_of(module, import).is_some() {
        let address = Address::Function(printers);
        let printers = shifted(printers, 1)?;
        return Ok(Some(Counted { address, printers }));
    }
    match fitting_export(definitions, classes, files, before.types, import)? {
        Some(address) => Ok(Some(Counted { address, printers })),
        None => Ok(None),
    }
}

/// What the imports of a file stand for, in order, or the number of the first for which there is nothing.
pub(crate) fn find_imports<'a>(
    alloc: Global,
    definitions: &Definitions,
    classes: &Classes,
    files: &[File<'a>],
    before: &Before,
    module: &'a Module,
) -> Result<Imported, AllocError>
    requires classes { IsClassesOf definitions.now.types classes.now }
    ensures { IfOk result (λ found. (ps : List linked.Placed) → AreFiles 0 files.now ps
        → linked.imports_of (tests_of classes.now) definitions.now ps module.now before.now.types before.now.printers module.now.imports ≡ imported_of found) }
{
    let mut found = Vec::new(alloc);
    let mut printers = before.printers;
    for import in module.imports.as_slice() {
        let next = import_address(
            definitions,
            classes,
            files,
            before,
            printers,
            module,
            import,
        )?;
        let Some(counted) = next else {
            return Ok(Imported::Missing(found.len()));
        };
        found.push(counted.address)?;
        printers = counted.printers;
    }
    Ok(Imported::All(found, printers))
}
