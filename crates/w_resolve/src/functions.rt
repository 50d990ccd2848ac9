//! Functions, with addresses in the place of indices (Core, execution, allocation of modules).
ghost use Rattle.std.specs.Prelude.{◌≡◌, ◌++◌, map, IfOk, OnOk};
ghost use Rattle.w_link.specs.Resolved.{run_shifted};
ghost use Rattle.w_link.specs.Items.{resolved_func};

use crate::bodies::resolve_body;
use crate::instance::ModuleInstance;
use crate::types::resolve_type;
use lists::ListOf;
use std::alloc::{AllocError, Global};
use w_syntax::{Func, LocalRun, Locals};

// So many locals of one type.
fn resolve_run(n: u32, run: LocalRun) -> Result<LocalRun, AllocError>
    ensures { IfOk result (λ r. r ≡ run_shifted n run) }
{
    let count = run.count;
    let kind = resolve_type(n, run.kind)?;
    Ok(LocalRun { count, kind })
}

// Runs of locals, where they lie.
fn resolve_runs(n: u32, mut runs: Vec<LocalRun>) -> Result<Vec<LocalRun>, AllocError>
    ensures { IfOk result (λ v. v.items ≡ map (run_shifted n) runs.items) }
{
    for run in runs.iter_mut() {
        *run = resolve_run(n, *run)?;
    }
    Ok(runs)
}

// The locals of a function, of which there are as many as before: which types are alike stays, and so neighbours stay apart (Core,
// modules, functions).
fn resolve_locals(alloc: Global, n: u32, locals: Locals) -> Result<Locals, AllocError>
    ensures { IfOk result (λ l. l ≡ map (run_shifted n) locals) }
{
    let runs = resolve_runs(n, locals.into_runs())?;
    match Locals::of_runs(alloc, runs)? {
        Some(locals) => Ok(locals),
        None => Err(AllocError),
    }
}

// A function (Core, modules, functions).
fn resolve_func(alloc: Global, instance: &ModuleInstance, func: Func) -> Result<Func, AllocError>
    ensures { IfOk result (λ f. f ≡ resolved_func instance.now func) }
{
    let Func { locals, body } = func;
    let locals = resolve_locals(alloc, instance.types, locals)?;
    let body = resolve_body(alloc, instance, body)?;
    Ok(Func { locals, body })
}

/// The code of a file's functions, behind that of the files before (Core, modules, functions). It fails only for want of memory.
pub fn append_codes(
    alloc: Global,
    instance: &ModuleInstance,
    codes: ListOf<Func>,
    all: &mut Vec<Func>,
) -> Result<(), AllocError>
    ensures { OnOk result (all.new.items ≡ all.old.items ++ map (resolved_func instance.now) codes) }
{
    for func in codes.into_vec() {
        all.push(resolve_func(alloc, instance, func)?)?;
    }
    Ok(())
}
