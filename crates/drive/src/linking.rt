//! Files that are linked.
ghost use Rattle.std.specs.Prelude.{◌≡◌, ◌≤◌, ◌++◌, ◌∷◌, ℕ, List, Bool, [], Err, None, IfOk, IfErr, OnOk};
ghost use Rattle.w_outside.specs.Outside.{Grew, Rose};
ghost use Rattle.w_syntax.specs.declared.module.Module.{Module as TheModule};
ghost use Rattle.w_linker.specs.Links.{Links};
ghost use Rattle.w_machine.specs.Beginning.{BeginsAt};
ghost use Rattle.w_machine.specs.Position.{most_reductions};
ghost use Rattle.replies.specs.Answer.{no_import, LinkGives, NamesGive};
ghost use Rattle.replies.specs.Stop.{Refuses};
ghost use Rattle.runs.specs.Delivery.{MayFail};
ghost use Rattle.runs.specs.Leaving.{Leaves};
ghost use Rattle.drive.specs.Linking.{AreRead, AreRefused, names_of};

use intake::read_module;
use replies::{
    Origin, Output, Status, Stop, import_line, in_file, refuse, refuse_by, start_limit_line,
};
use runs::{run_from, trap_refusal};
use std::alloc::{AllocError, Global};
use w_linker::{LinkFault, Linked, link};
use w_machine::Machine;
use w_outside::{Inputs, Sink};
use w_rules::Checked;

/// So many files are linked at most.
pub const MOST_FILES: usize = 16;

// A module more.
fn push_module(modules: &mut Vec<Checked>, checked: Checked) -> Result<(), AllocError>
    ensures { OnOk result (modules.new.items ≡ modules.old.items ++ checked ∷ []) }
{
    modules.push(checked)?;
    Ok(())
}

// The modules of the files of these names, in order, each valid and within its limits.
fn read_modules<F: Inputs>(
    alloc: Global,
    files: &mut F,
    names: &[&str],
) -> Result<Vec<Checked>, Stop>
    ensures read { IfOk result (λ modules. AreRead (names_of names.now) (F.file files.old) modules.items) }
    ensures refused { IfErr result (Refuses (AreRefused (names_of names.now) (F.file files.old)
        (Rose (F.faults files.old) (F.faults files.new)))) }
    ensures later { F.faults files.old ≤ F.faults files.new }
    ensures names { (n : List ℕ) → F.file files.new n ≡ F.file files.old n }
{
    let mut modules = Vec::new(alloc);
    for name in names {
        let checked = read_module(alloc, files, name, modules.len())?;
        push_module(&mut modules, checked)?;
    }
    Ok(modules)
}

// Nothing is there for an import.
fn import_refusal(alloc: Global, index: usize) -> Stop
    ensures { Refuses (λ reply. reply ≡ no_import index) result }
{
    match import_line(alloc, index) {
        Ok(line) => refuse_by(alloc, line, Status::Invalid),
        Err(_) => Stop::OutOfMemory,
    }
}

// Why files have no run.
fn no_linked_run(alloc: Global, fault: LinkFault) -> Stop
    ensures { (ms : List TheModule) (steps : ℕ) (stats : Bool) → Links ms (Err fault) → Refuses (LinkGives steps stats ms) result }
{
    match fault {
        LinkFault::NoEntry => refuse(alloc, b"no entry\n", Status::Invalid),
        LinkFault::Import(file, index) => in_file(alloc, file, import_refusal(alloc, index)),
        LinkFault::Limit(file, name) => {
            let stop = refuse(alloc, start_limit_line(name), Status::Limit);
            in_file(alloc, file, stop)
        }
        LinkFault::Trap(file, trap) => {
            in_file(alloc, file, trap_refusal(alloc, Origin::Module, trap))
        }
        LinkFault::OutOfMemory => Stop::OutOfMemory,
    }
}

// The machine of files that were linked.
fn linked_machine(alloc: Global, linked: Linked) -> Result<Machine, AllocError>
    requires { BeginsAt linked.program linked.store linked.starts.items linked.main }
    ensures { IfOk result (λ machine. machine ≡ record {
      origin = record { source = linked.program; starts = linked.starts.items; main = linked.main };
      taken = 0;
      stop = None;
    }) }
{
    let Linked {
        program,
        store,
        starts,
        main,
    } = linked;
    Machine::linked(alloc, program, store, starts, main)
}

/// Runs modules, linked, where they have a run. What is printed goes to out; the answer is what is left to write.
pub fn run_linked<O: Sink>(
    alloc: Global,
    modules: Vec<Checked>,
    steps: u64,
    stats: bool,
    out: &mut O,
) -> Result<Output, Stop>
    requires { steps ≤ most_reductions }
    ensures leaves { Leaves (LinkGives steps stats modules.items) result
        (Grew (O.held out.old) (O.held out.new)) (Rose (O.faults out.old) (O.faults out.new)) }
    ensures later { O.faults out.old ≤ O.faults out.new }
{
    match link(alloc, modules) {
        Ok(linked) => {
            let machine = linked_machine(alloc, linked)?;
            run_from(alloc, Origin::Module, machine, steps, stats, out)
        }
        Err(fault) => Err(no_linked_run(alloc, fault)),
    }
}

/// Runs the files of these names, linked. What is printed goes to out; the answer is what is left to write.
pub(crate) fn run_files<F: Inputs, O: Sink>(
    alloc: Global,
    files: &mut F,
    names: &[&str],
    steps: u64,
    stats: bool,
    out: &mut O,
) -> Result<Output, Stop>
    requires { steps ≤ most_reductions }
    ensures leaves { Leaves (MayFail (Rose (F.faults files.old) (F.faults files.new))
        (NamesGive steps stats (names_of names.now) (F.file files.old))) result
        (Grew (O.held out.old) (O.held out.new)) (Rose (O.faults out.old) (O.faults out.new)) }
    ensures later { (F.faults files.old ≤ F.faults files.new) × (O.faults out.old ≤ O.faults out.new) }
    ensures names { (n : List ℕ) → F.file files.new n ≡ F.file files.old n }
{
    if names.len() > MOST_FILES {
        return Err(refuse(alloc, b"limit files\n", Status::Limit));
    }
    let modules = read_modules(alloc, files, names)?;
    run_linked(alloc, modules, steps, stats, out)
}
