//! The instances of several files that are linked (Core, execution, instantiation).
ghost use Rattle.std.specs.Prelude.{◌≡◌, IfOk, [], string_bytes};
ghost use Rattle.w_canon.specs.IsClassesOf.{IsClassesOf};
ghost use Rattle.w_linked.specs.Definitions as linked;
ghost use Rattle.w_linked.specs.Imports.{TypeTests, file_name};
ghost use Rattle.w_linked.specs.Laws.{AreTestsOf};
ghost use Rattle.w_linked.specs.Linked.{placing, at_first};
ghost use Rattle.w_placing.specs.Files.{instances_of};
ghost use Rattle.w_placing.specs.Placing.{placing_of, HasAll};

use crate::counting::{Before, counted};
use crate::definitions::Definitions;
use crate::exports::{Exports, File, file_name};
use crate::imports::{Imported, find_imports};
use crate::instances::instance_of;
use std::alloc::{AllocError, Global};
use w_canon::Classes;
use w_resolve::ModuleInstance;
use w_rules::Checked;
use w_syntax::Module;

/// The instance of each file, in order, or the numbers of the file and the import for which there is nothing.
#[derive(Drop)]
pub enum Placing {
    Placed(Vec<ModuleInstance>),
    NoImport(usize, usize),
}

// How many functions of the host the files name: those that are no file's own.
fn count_hosts(modules: &[Checked], definitions: &Definitions) -> Result<u32, AllocError>
    requires { definitions.now ≡ linked.definitions modules.now }
    ensures { IfOk result (λ n. n ≡ linked.hosts modules.now) }
{
    let mut count = definitions.functions.len();
    for checked in modules {
        count -= checked.module().functions.len();
    }
    counted(0, count)
}

// A file that is placed.
fn new_file<'a>(
    alloc: Global,
    number: usize,
    module: &'a Module,
    instance: ModuleInstance,
) -> Result<File<'a>, AllocError>
    ensures name { IfOk result (λ file. string_bytes file.name ≡ file_name number) }
    ensures exports { IfOk result (λ file. file.exports ≡ module.now.exports) }
    ensures instance { IfOk result (λ file. file.instance ≡ instance) }
{
    let name = file_name(alloc, number)?;
    let exports = Exports::new(alloc, module.exports.as_slice())?;
    Ok(File {
        name,
        exports,
        instance,
    })
}

// The instances of the files.
fn into_instances<'a>(
    alloc: Global,
    files: Vec<File<'a>>,
) -> Result<Vec<ModuleInstance>, AllocError>
    ensures { IfOk result (λ is. is.items ≡ instances_of files.entry.items) }
{
    let mut instances = Vec::new(alloc);
    for file in files {
        instances.push(file.instance)?;
    }
    Ok(instances)
}

/// Places several files: finds what each import stands for, among the exports of the files before, and makes the instance of each file.
/// It fails only for want of memory.
pub fn place<'a>(
    alloc: Global,
    modules: &'a [Checked],
    definitions: &Definitions,
    classes: &Classes,
) -> Result<Placing, AllocError>
    requires defined { definitions.now ≡ linked.definitions modules.now }
    requires classes { IsClassesOf definitions.now.types classes.now }
    ensures placed { IfOk result (λ r. (tests : TypeTests) → AreTestsOf definitions.now.types tests
        → placing tests (linked.definitions modules.now) [] (at_first (linked.hosts modules.now)) modules.now ≡ placing_of modules.now r) }
    ensures as_many { IfOk result (λ r. HasAll modules.now r) }
{
    let mut before = Before::at_first(count_hosts(modules, definitions)?);
    let mut files = Vec::new(alloc);
    for checked in modules {
        let module = checked.module();
        match find_imports(
            alloc,
            definitions,
            classes,
            files.as_slice(),
            &before,
            module,
        )? {
            Imported::Missing(import) => return Ok(Placing::NoImport(files.len(), import)),
            Imported::All(found, printers) => {
                let instance = instance_of(alloc, &before, found.as_slice(), module)?;
                let file = new_file(alloc, files.len(), module, instance)?;
                files.push(file)?;
                before = before.and_file(printers, module)?;
            }
        }
    }
    Ok(Placing::Placed(into_instances(alloc, files)?))
}
