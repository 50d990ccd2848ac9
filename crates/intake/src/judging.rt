//! The judgement on a module.
ghost use Rattle.std.specs.Prelude.{◌≡◌, ◌≢◌, IfOk, IfErr, IsTrue, IsFalse};
ghost use Rattle.w_rules.specs.Limits.{Within};
ghost use Rattle.w_rules.specs.Valid.{Valid};
ghost use Rattle.replies.specs.Answer.{ModuleRefusal, invalid};
ghost use Rattle.w_valid.specs.Gradual.{AnswersFor};
ghost use Rattle.replies.specs.Status.{code_of};
ghost use Rattle.replies.specs.Stop.{Ends, Refuses};

use replies::{Status, Stop, invalid_line, refuse_by};
use std::alloc::Global;
use w_rules::Checked;
use w_syntax::Module;
use w_valid::{Gradual, ValidFault, validate};

// The status of a module that is not accepted.
fn invalid_status(fault: ValidFault) -> Status
    ensures code { code_of result ≡ (invalid fault).status }
    ensures ends { Ends result }
{
    match fault {
        ValidFault::Limit(_) => Status::Limit,
        ValidFault::TypeAt(_) => Status::Invalid,
        ValidFault::Import(_) => Status::Invalid,
        ValidFault::Table(_) => Status::Invalid,
        ValidFault::Memory => Status::Invalid,
        ValidFault::Tag(_) => Status::Invalid,
        ValidFault::Global(_) => Status::Invalid,
        ValidFault::Element(_) => Status::Invalid,
        ValidFault::Data(_) => Status::Invalid,
        ValidFault::Start => Status::Invalid,
        ValidFault::Export(_) => Status::Invalid,
        ValidFault::Function(_) => Status::Invalid,
        ValidFault::OutOfMemory => Status::Invalid,
    }
}

// Whether a fault says nothing of the module.
fn is_of_memory(fault: ValidFault) -> bool
    ensures yes { IsTrue result → fault ≡ ValidFault.OutOfMemory }
    ensures no { IsFalse result → fault ≢ ValidFault.OutOfMemory }
{
    match fault {
        ValidFault::Limit(_) => false,
        ValidFault::TypeAt(_) => false,
        ValidFault::Import(_) => false,
        ValidFault::Table(_) => false,
        ValidFault::Memory => false,
        ValidFault::Tag(_) => false,
        ValidFault::Global(_) => false,
        ValidFault::Element(_) => false,
        ValidFault::Data(_) => false,
        ValidFault::Start => false,
        ValidFault::Export(_) => false,
        ValidFault::Function(_) => false,
        ValidFault::OutOfMemory => true,
    }
}

// Why a module is refused.
fn refusal_of(alloc: Global, fault: ValidFault) -> Stop
    ensures { Refuses (λ reply. (fault ≢ ValidFault.OutOfMemory) × (reply ≡ invalid fault)) result }
{
    if is_of_memory(fault) {
        return Stop::OutOfMemory;
    }
    match invalid_line(alloc, fault) {
        Ok(line) => refuse_by(alloc, line, invalid_status(fault)),
        Err(_) => Stop::OutOfMemory,
    }
}

/// The module itself, where it is valid and within its limits.
pub fn accept(alloc: Global, candidate: Module) -> Result<Checked, Stop>
    ensures same { IfOk result (λ checked. checked ≡ candidate) }
    ensures within { IfOk result Within }
    ensures valid { IfOk result Valid }
    ensures refused { IfErr result (Refuses (ModuleRefusal candidate)) }
{
    match validate(alloc, candidate) {
        Ok(checked) => Ok(checked),
        Err(fault) => Err(refusal_of(alloc, fault)),
    }
}

/// The same, where its first bodies were judged before.
pub(crate) fn accept_rest(
    alloc: Global,
    gradual: Gradual,
    candidate: Module,
) -> Result<Checked, Stop>
    requires { AnswersFor gradual candidate }
    ensures same { IfOk result (λ checked. checked ≡ candidate) }
    ensures within { IfOk result Within }
    ensures valid { IfOk result Valid }
    ensures refused { IfErr result (Refuses (ModuleRefusal candidate)) }
{
    match gradual.finish(candidate) {
        Ok(checked) => Ok(checked),
        Err(fault) => Err(refusal_of(alloc, fault)),
    }
}
