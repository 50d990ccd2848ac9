//! What is known of each function of a module: one list, made when a run begins, so that a call looks up all that it needs in one place.
ghost use Rattle.std.specs.Prelude.{◌≡◌, ◌<◌, ◌^◌, IfOk, OnOk, length};
ghost use Rattle.w_types.specs.declared.types.FuncType.{FuncType as FuncKind};
ghost use Rattle.w_syntax.specs.Functions.{code_of_function, type_of_function};
ghost use Rattle.w_syntax.specs.Locals.{total};
ghost use Rattle.w_rules.specs.Sound.{AreNarrow};
ghost use Rattle.w_stands.specs.Code.{AllShort, instrs};
ghost use Rattle.w_call_ops.specs.KnownFunctions.{AreFactsOf, AreOf};

use std::alloc::{AllocError, Global};
use std::marker::Model;
use w_canon::Classes;
use w_rules::{Runnable, function_type};
use w_syntax::{Func, LocalRun, Module};

/// What is known of a function of the module.
#[derive(Clone, Copy)]
pub struct FunctionFacts {
    /// How many parameters it has.
    pub params: u32,
    /// How many results it has.
    pub results: u32,
    /// How many locals it has beside its parameters.
    pub locals: u64,
    /// The most operands at a counted place of its body.
    pub height: u64,
    /// One plus the most blocks around a place of its body.
    pub depth: u32,
    /// How many instructions its body has.
    pub end: u32,
}

// How many locals these runs are.
fn count_locals(runs: &[LocalRun]) -> usize
    requires few { total runs.now < 2 ^ 32 }
    ensures count { result ≡ total runs.now }
{
    let mut count = 0;
    for run in runs {
        count += run.count as usize;
    }
    count
}

// How many parameters and results the function of this index has, where it has a type.
fn arities(module: &Module, function: u32) -> (u32, u32)
    requires narrow { AreNarrow module.now }
    ensures params { (t : FuncKind) → type_of_function module.now function ≡ Some t → result.0 ≡ length t.params }
    ensures results { (t : FuncKind) → type_of_function module.now function ≡ Some t → result.1 ≡ length t.results }
{
    match function_type(module, function as usize) {
        Some(kind) => (kind.params.len() as u32, kind.results.len() as u32),
        None => (0, 0),
    }
}

// What is known of the function of this index, which has this code. It fails where its body has 2^32 instructions or more.
fn facts_at(program: &Runnable, function: u32, code: &Func) -> Result<FunctionFacts, AllocError>
    requires there { code_of_function program.now function ≡ Some code.now }
    ensures facts { IfOk result (λ r. AreOf program.now function r) }
    ensures short { OnOk result (length (instrs program.now function) < 2 ^ 32) }
{
    let Ok(end) = u32::try_from(code.body.instrs().len()) else {
        return Err(AllocError);
    };
    let (params, results) = arities(program.module(), function);
    Ok(FunctionFacts {
        params,
        results,
        locals: count_locals(code.locals.as_slice()) as u64,
        height: program.height(function),
        depth: program.depth(function),
        end,
    })
}

/// What is known of each function of the module. It fails when out of memory, or where there are 2^32 functions or a body has 2^32
/// instructions, or more.
pub fn all_facts(alloc: Global, program: &Runnable) -> Result<Vec<FunctionFacts>, AllocError>
    ensures facts { IfOk result (λ fs. AreFactsOf program.now fs.items) }
    ensures short { OnOk result (AllShort program.now) }
{
    let mut facts = Vec::new(alloc);
    for code in program.module().codes.as_slice() {
        let Ok(function) = u32::try_from(facts.len()) else {
            return Err(AllocError);
        };
        facts.push(facts_at(program, function, code)?)?;
    }
    Ok(facts)
}

/// A module that can be run, with what is known of its functions. Contracts see the module.
#[derive(Drop)]
pub struct Callees {
    runnable: Runnable,
    facts: Vec<FunctionFacts>,
}

impl Model for Callees {
    ghost use Rattle.w_syntax.specs.declared.module.Module.{Module};
    ghost use Rattle.w_syntax.specs.contracts.module.Module as module_contract;
    ghost use Rattle.w_stands.specs.Code.{AllShort};
    ghost use Rattle.w_call_ops.specs.KnownFunctions.{AreFactsOf};

    ghost Value = { Module };

    ghost coded = { module_contract.the_row.coded };

    ghost view = { λ a. a.runnable };

    ghost invariant = { λ a. AllShort a.runnable × AreFactsOf a.runnable a.facts.items };
}

impl Callees {
    ghost use Rattle.std.specs.Prelude.{◌≡◌};
    ghost use Rattle.w_types.specs.declared.types.FuncType.{FuncType};
    ghost use Rattle.w_syntax.specs.declared.module.Func.{Func};
    ghost use Rattle.w_canon.specs.IsClassesOf.{IsClassesOf};
    ghost use Rattle.w_rules.specs.Sound.{AreNarrow, Sound};
    ghost use Rattle.w_stands.specs.Code.{AllShort};
    ghost use Rattle.w_call_ops.specs.Entering.{IsFunction};
    ghost use Rattle.w_call_ops.specs.KnownFunctions.{AreFactsOf, AreOf};

    /// Keeps a module with what is known of its functions (`all_facts`).
    #[inline]
    pub fn make(runnable: Runnable, facts: Vec<FunctionFacts>) -> Callees
        requires short { AllShort runnable }
        requires facts { AreFactsOf runnable facts.items }
        ensures { result ≡ runnable }
    {
        Callees { runnable, facts }
    }

    /// The module.
    #[inline]
    pub fn module(&self) -> &Module
        ensures same { result.now ≡ self.now }
        ensures narrow { AreNarrow self.now }
        ensures sound { Sound self.now }
        ensures short { AllShort self.now }
    {
        self.runnable.module()
    }

    /// The classes of the module's types.
    #[inline]
    pub fn classes(&self) -> &Classes
        ensures { IsClassesOf self.now.types result.now }
    {
        self.runnable.classes()
    }

    /// What is known of a function of the module, which is there.
    #[inline]
    pub fn facts(&self, function: u32) -> FunctionFacts
        requires { (t : FuncType) × (f : Func) × IsFunction self.now function t f }
        ensures { AreOf self.now function result }
    {
        self.facts[function as usize]
    }
}
