//! Scripts.
ghost use Rattle.std.specs.Prelude.{◌≡◌, ◌<◌, ◌≤◌, false, IfOk, IfErr};
ghost use Rattle.w_outside.specs.Outside.{Grew, Rose};
ghost use Rattle.w_machine.specs.Position.{most_reductions};
ghost use Rattle.s_check.specs.Size.{Size, size_limit};
ghost use Rattle.s_code.specs.Lowered.{lowered};
ghost use Rattle.words.specs.Request.{IsWithinSteps, taken_by};
ghost use Rattle.words.specs.declared.request.Takes.TheVariants.{ModulesAndScripts};
ghost use Rattle.replies.specs.Answer.{Compiled, RunGives, ScriptGives, Sized, bad_script, built, faulted, limit_size, ok_script, script_gives};
ghost use Rattle.runs.specs.Leaving.{Leaves};
ghost use Rattle.replies.specs.Status.{code_of};
ghost use Rattle.replies.specs.Stop.{Ends, Gives, Refuses};

use crate::finishing::build;
use intake::accept;
use replies::{Origin, Output, Status, Stop, refuse, refuse_by, script_line};
use runs::run;
use s_check::CheckedScript;
use s_judge::{ScriptFault, judge};
use s_lower::{LowerFault, SIZE_LIMIT, lower};
use s_size::is_within;
use std::alloc::Global;
use w_outside::Sink;
use w_syntax::Module;
use words::Action;

// The status of a script that is refused.
fn script_status(fault: ScriptFault) -> Status
    ensures code { code_of result ≡ (bad_script fault).status }
    ensures ends { Ends result }
{
    match fault {
        ScriptFault::TooLong => Status::Limit,
        ScriptFault::Lex(_) => Status::BadScript,
        ScriptFault::Parse(_) => Status::BadScript,
        ScriptFault::Deep => Status::BadScript,
        ScriptFault::Rule(_, _) => Status::BadScript,
        ScriptFault::OutOfMemory => Status::BadScript,
    }
}

// Why a script is refused.
fn script_refusal(alloc: Global, fault: ScriptFault) -> Stop
    ensures { Refuses (λ reply. reply ≡ bad_script fault) result }
{
    match script_line(alloc, fault) {
        Ok(line) => refuse_by(alloc, line, script_status(fault)),
        Err(_) => Stop::OutOfMemory,
    }
}

// Checks the size of a script that breaks no rule.
fn check_size(alloc: Global, script: &CheckedScript) -> Result<Output, Stop>
    ensures gives { Gives (Sized (λ reply. reply ≡ ok_script) script.now) result }
{
    if !is_within(script.script(), SIZE_LIMIT) {
        return Err(refuse(alloc, b"limit size\n", Status::Limit));
    }
    let line = Vec::from_slice(alloc, b"ok script\n")?;
    Ok(Output::of_piece(alloc, line)?)
}

// Checks a script.
fn check_script(alloc: Global, bytes: &[u8]) -> Result<Output, Stop>
    ensures gives { Gives (ScriptGives (Sized (λ reply. reply ≡ ok_script)) bytes.now) result }
{
    match judge(alloc, bytes) {
        Ok(script) => check_size(alloc, &script),
        Err(ScriptFault::OutOfMemory) => Err(Stop::OutOfMemory),
        Err(fault) => Err(script_refusal(alloc, fault)),
    }
}

// The module of a script that breaks no rule.
fn compile(alloc: Global, script: &CheckedScript) -> Result<Module, Stop>
    ensures small { IfOk result (λ m. Size script.now ≤ size_limit) }
    ensures module_of { IfOk result (λ m. m ≡ lowered script.now) }
    ensures refused { IfErr result (Refuses (λ reply. (size_limit < Size script.now) × (reply ≡ limit_size))) }
{
    match lower(alloc, script) {
        Ok(module) => Ok(module),
        Err(LowerFault::TooLarge) => Err(refuse(alloc, b"limit size\n", Status::Limit)),
        Err(LowerFault::OutOfMemory) => Err(Stop::OutOfMemory),
    }
}

// Compiles a script that breaks no rule, and writes its module.
fn build_checked(alloc: Global, script: &CheckedScript) -> Result<Output, Stop>
    ensures gives { Gives (Compiled (λ m reply. reply ≡ built m) script.now) result }
{
    let module = compile(alloc, script)?;
    let output = build(alloc, &module);
    drop(module);
    output
}

// Compiles a script.
fn build_script(alloc: Global, bytes: &[u8]) -> Result<Output, Stop>
    ensures gives { Gives (ScriptGives (Compiled (λ m reply. reply ≡ built m)) bytes.now) result }
{
    match judge(alloc, bytes) {
        Ok(script) => build_checked(alloc, &script),
        Err(ScriptFault::OutOfMemory) => Err(Stop::OutOfMemory),
        Err(fault) => Err(script_refusal(alloc, fault)),
    }
}

// Compiles a script that breaks no rule, and runs its module, which is valid.
fn run_checked<O: Sink>(
    alloc: Global,
    script: &CheckedScript,
    steps: u64,
    out: &mut O,
) -> Result<Output, Stop>
    requires { steps ≤ most_reductions }
    ensures leaves { Leaves (Compiled (RunGives (faulted script.now) steps false) script.now) result
        (Grew (O.held out.old) (O.held out.new)) (Rose (O.faults out.old) (O.faults out.new)) }
    ensures later { O.faults out.old ≤ O.faults out.new }
{
    let origin = Origin::Script(script.script());
    let module = compile(alloc, script)?;
    let checked = accept(alloc, module)?;
    run(alloc, origin, checked, steps, false, out)
}

// Runs a script.
fn run_script<O: Sink>(alloc: Global, bytes: &[u8], steps: u64, out: &mut O) -> Result<Output, Stop>
    requires { steps ≤ most_reductions }
    ensures leaves { Leaves (ScriptGives (λ p. Compiled (RunGives (faulted p) steps false) p) bytes.now) result
        (Grew (O.held out.old) (O.held out.new)) (Rose (O.faults out.old) (O.faults out.new)) }
    ensures later { O.faults out.old ≤ O.faults out.new }
{
    match judge(alloc, bytes) {
        Ok(script) => run_checked(alloc, &script, steps, out),
        Err(ScriptFault::OutOfMemory) => Err(Stop::OutOfMemory),
        Err(fault) => Err(script_refusal(alloc, fault)),
    }
}

/// Does with a script what is asked for. What a run prints goes to out; the answer is what is left to write.
pub(crate) fn act_on_script<O: Sink>(
    alloc: Global,
    action: Action,
    bytes: &[u8],
    out: &mut O,
) -> Result<Output, Stop>
    requires steps { IsWithinSteps action }
    requires takes { taken_by action ≡ ModulesAndScripts }
    ensures leaves { Leaves (ScriptGives (script_gives action) bytes.now) result
        (Grew (O.held out.old) (O.held out.new)) (Rose (O.faults out.old) (O.faults out.new)) }
    ensures later { O.faults out.old ≤ O.faults out.new }
{
    match action {
        Action::Check => check_script(alloc, bytes),
        Action::Run { steps, .. } => run_script(alloc, bytes, steps, out),
        Action::Build => build_script(alloc, bytes),
        Action::Dump => unreachable!(),
        Action::Assemble => unreachable!(),
        Action::Trace { .. } => unreachable!(),
    }
}
