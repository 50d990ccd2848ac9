//! What the linked module imports: the functions of the host (Core, modules, imports).
ghost use Rattle.std.specs.Prelude.{◌≡◌, ◌++◌, IfOk, OnOk, option_to_list};
ghost use Rattle.w_reduce.specs.Imports.{printer_of};
ghost use Rattle.w_linked.specs.Linked as linked;

use lists::ListOf;
use std::alloc::AllocError;
use w_inst::printer_of;
use w_resolve::shifted;
use w_syntax::{ExternType, Import, Module};

// An import that is a function of the host, with the index of its type counted on.
fn host_import(n: u32, module: &Module, import: Import) -> Result<Option<Import>, AllocError>
    ensures { IfOk result (λ o. option_to_list o ≡ linked.host_import n import import.kind (printer_of module.now import)) }
{
    match (import.kind, printer_of(module, &import)) {
        (ExternType::Func(index), Some(_)) => {
            let Import {
                module_name,
                item_name,
                ..
            } = import;
            let kind = ExternType::Func(shifted(n, index)?);
            Ok(Some(Import {
                module_name,
                item_name,
                kind,
            }))
        }
        _ => Ok(None),
    }
}

// Adds an import that is a function of the host.
fn append_import(
    n: u32,
    module: &Module,
    import: Import,
    all: &mut Vec<Import>,
) -> Result<(), AllocError>
    ensures { OnOk result (all.new.items ≡ all.old.items ++ linked.host_import n import import.kind (printer_of module.now import)) }
{
    if let Some(import) = host_import(n, module, import)? {
        all.push(import)?;
    }
    Ok(())
}

/// The imports of a file that are functions of the host, behind those of the files before. The module has its types still.
pub(crate) fn append_imports(
    n: u32,
    module: &Module,
    imports: ListOf<Import>,
    all: &mut Vec<Import>,
) -> Result<(), AllocError>
    ensures { OnOk result (all.new.items ≡ all.old.items ++ linked.host_imports n module.now imports) }
{
    for import in imports.into_vec() {
        append_import(n, module, import, all)?;
    }
    Ok(())
}
