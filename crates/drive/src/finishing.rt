//! What an action gives of a module.
ghost use Rattle.std.specs.Prelude.{◌≡◌, ◌≤◌};
ghost use Rattle.w_outside.specs.Outside.{Grew, Rose};
ghost use Rattle.words.specs.Request.{IsWithinSteps};
ghost use Rattle.replies.specs.Answer.{gives, ok_module, built, dumped};
ghost use Rattle.runs.specs.Leaving.{Leaves};
ghost use Rattle.replies.specs.Stop.{Gives};

use replies::{Origin, Output, Stop};
use runs::run;
use std::alloc::Global;
use std::mem::forget;
use traces::trace;
use w_encode::encode;
use w_outside::Sink;
use w_rules::Checked;
use w_syntax::Module;
use w_text::dump as text_of;
use words::Action;

// What is said of a module that is valid.
fn confirm(alloc: Global) -> Result<Output, Stop>
    ensures { Gives (λ reply. reply ≡ ok_module) result }
{
    let line = Vec::from_slice(alloc, b"ok module\n")?;
    Ok(Output::of_piece(alloc, line)?)
}

/// A module is written in its canonical spelling, as one piece.
pub(crate) fn build(alloc: Global, program: &Module) -> Result<Output, Stop>
    ensures { Gives (λ reply. reply ≡ built program.now) result }
{
    let spelling = encode(alloc, program)?;
    Ok(Output::of_piece(alloc, spelling)?)
}

// A module is written as text, as one piece.
fn dump(alloc: Global, program: &Module) -> Result<Output, Stop>
    ensures { Gives (λ reply. reply ≡ dumped program.now) result }
{
    let text = text_of(alloc, program)?;
    Ok(Output::of_piece(alloc, text)?)
}

// A module that is let go once it is written.
fn build_checked(alloc: Global, checked: Checked) -> Result<Output, Stop>
    ensures { Gives (λ reply. reply ≡ built checked) result }
{
    let output = build(alloc, checked.module());
    drop(checked);
    output
}

// The same, as text.
fn dump_checked(alloc: Global, checked: Checked) -> Result<Output, Stop>
    ensures { Gives (λ reply. reply ≡ dumped checked) result }
{
    let output = dump(alloc, checked.module());
    drop(checked);
    output
}

/// What the process does once the answer is written.
#[derive(Clone, Copy)]
pub(crate) enum Process {
    /// It ends: the command was all that it does.
    Ends,
    /// It goes on.
    GoesOn,
}

// Lets a module go where the process goes on. Where it ends, to let it go would look through each of its bodies once more.
fn let_go(checked: Checked, process: Process) {
    match process {
        Process::Ends => forget(checked),
        Process::GoesOn => drop(checked),
    }
}

/// Does with a module what is asked for. What a run prints goes to out; the answer is what is left to write. A module that was only checked
/// is let go where the process goes on.
pub(crate) fn finish<O: Sink>(
    alloc: Global,
    action: Action,
    checked: Checked,
    process: Process,
    out: &mut O,
) -> Result<Output, Stop>
    requires { IsWithinSteps action }
    ensures leaves { Leaves (gives action checked) result
        (Grew (O.held out.old) (O.held out.new)) (Rose (O.faults out.old) (O.faults out.new)) }
    ensures later { O.faults out.old ≤ O.faults out.new }
{
    match action {
        Action::Check => {
            let_go(checked, process);
            confirm(alloc)
        }
        Action::Run { steps, stats } => run(alloc, Origin::Module, checked, steps, stats, out),
        Action::Build => build_checked(alloc, checked),
        Action::Dump => dump_checked(alloc, checked),
        Action::Assemble => build_checked(alloc, checked),
        Action::Trace { steps } => trace(alloc, checked, steps, out),
    }
}
