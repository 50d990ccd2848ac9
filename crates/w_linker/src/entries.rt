//! main, and the functions that run before it (Core, execution, instantiation).
ghost use Rattle.std.specs.Prelude.{◌≡◌, ◌++◌, [], IfOk, OnOk, length};
ghost use Rattle.w_linked.specs.Linked as linked;
ghost use Rattle.w_linked.specs.Starting as starting;
ghost use Rattle.w_placing.specs.Placing.{zipped};
ghost use Rattle.w_linker.specs.Parts.{in_last_of};

use std::alloc::{AllocError, Global};
use w_inst::entry;
use w_resolve::ModuleInstance;
use w_rules::Checked;
use w_syntax::Module;

/// main of the last file, by its index there.
pub(crate) fn last_entry(modules: &[Checked]) -> Option<u32>
    ensures { result ≡ starting.last_entry modules.now }
{
    let checked = modules.last()?;
    entry(checked.module())
}

/// The address of a function of the last file.
pub(crate) fn in_last(instances: &[ModuleInstance], function: u32) -> u32
    ensures { result ≡ in_last_of instances.now function }
{
    match instances.last() {
        Some(instance) => instance.function(function),
        None => 0,
    }
}

// Adds the address of a file's start function, where it has one.
fn push_start(
    module: &Module,
    instance: &ModuleInstance,
    starts: &mut Vec<u32>,
) -> Result<(), AllocError>
    ensures { OnOk result (starts.new.items ≡ starts.old.items ++ linked.and_start module.now.start instance.now []) }
{
    if let Some(function) = module.start {
        starts.push(instance.function(function))?;
    }
    Ok(())
}

/// The addresses of the functions that run before main: the start functions of all files, in order.
pub(crate) fn all_starts(
    alloc: Global,
    modules: &[Checked],
    instances: &[ModuleInstance],
) -> Result<Vec<u32>, AllocError>
    requires { length instances.now ≡ length modules.now }
    ensures { IfOk result (λ starts. starts.items ≡ linked.all_starts (zipped modules.now instances.now)) }
{
    let mut starts = Vec::new(alloc);
    for index in 0..modules.len() {
        push_start(modules[index].module(), &instances[index], &mut starts)?;
    }
    Ok(starts)
}

/// The first of these functions.
pub(crate) fn first_start(starts: &[u32]) -> Option<u32>
    ensures { result ≡ linked.first_of starts.now }
{
    match starts {
        [first, ..] => Some(*first),
        [] => None,
    }
}
