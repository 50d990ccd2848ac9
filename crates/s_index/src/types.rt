//! The types of functions, handlers, effects and clauses.
ghost use Rattle.std.specs.Prelude.{◌≡◌, [], ◌∷◌, true, IfOk};
ghost use Rattle.w_types.specs.declared.types.ValType.TheVariants.{I64};
ghost use Rattle.s_index.specs.Types.{val_type, val_types, numbers, to_continuation, resumption_type, coroutine_type, from_to, function_type, handler_type, effect_type, clause_type};

use lists::ListOf;
use s_syntax::{Parameter, VariableType};
use std::alloc::{AllocError, Global};
use w_types::{CompType, FuncType, HeapType, PackedType, RefType};

/// The index of the type of resumptions.
pub const RESUMPTION: u32 = 1;

/// The index of the type of the printer of numbers.
pub const PRINTER: u32 = 4;

/// The index of the type of the tag of groups.
pub const GROUP_TAG: u32 = 2;

/// The index of the type of computations that are ready to run.
pub const COMPUTATION: u32 = 3;

/// The index of the type of coroutines.
pub const COROUTINE: u32 = 6;

// A reference to a continuation of the type of this index.
fn to_continuation(nullable: bool, index: u32) -> PackedType
    ensures value { result ≡ to_continuation nullable index }
{
    PackedType::reference(RefType {
        nullable,
        heap: HeapType::Index(index),
    })
}

/// The type of the local of a resumption.
pub fn resumption_local() -> PackedType
    ensures value { result ≡ to_continuation true resumption_type }
{
    to_continuation(true, RESUMPTION)
}

/// The type of the local of a coroutine.
pub fn coroutine_local() -> PackedType
    ensures value { result ≡ to_continuation true coroutine_type }
{
    to_continuation(true, COROUTINE)
}

/// The type of the local of a variable.
pub fn val_type(ty: &VariableType) -> PackedType
    ensures value { result ≡ val_type ty.now }
{
    match ty {
        VariableType::Int => PackedType::I64,
        VariableType::Resumption(_) => resumption_local(),
        VariableType::Coroutine => coroutine_local(),
    }
}

// The types of the locals of parameters.
fn val_types(alloc: Global, parameters: &[Parameter]) -> Result<Vec<PackedType>, AllocError>
    ensures value { IfOk result (λ types. types.items ≡ val_types parameters.now) }
{
    let mut types = Vec::new(alloc);
    for parameter in parameters {
        types.push(val_type(&parameter.ty))?;
    }
    Ok(types)
}

// So many numbers.
fn numbers(alloc: Global, count: usize) -> Result<Vec<PackedType>, AllocError>
    ensures value { IfOk result (λ types. types.items ≡ numbers count) }
{
    let mut types = Vec::new(alloc);
    for index in 0..count {
        types.push(PackedType::I64)?;
    }
    Ok(types)
}

// The function type from these parameters to a number.
fn to_number(alloc: Global, params: Vec<PackedType>) -> Result<CompType, AllocError>
    ensures value { IfOk result (λ ty. ty ≡ from_to params.items (I64 ∷ [])) }
{
    let mut results = Vec::new(alloc);
    results.push(PackedType::I64)?;
    Ok(CompType::Func(FuncType {
        params: ListOf::from_vec(params),
        results: ListOf::from_vec(results),
    }))
}

/// The type of a function. It fails only for want of memory.
pub fn function_type(alloc: Global, parameters: &[Parameter]) -> Result<CompType, AllocError>
    ensures value { IfOk result (λ ty. ty ≡ function_type parameters.now) }
{
    to_number(alloc, val_types(alloc, parameters)?)
}

/// The type of a handler's function. It fails only for want of memory.
pub fn handler_type(alloc: Global, parameters: &[Parameter]) -> Result<CompType, AllocError>
    ensures value { IfOk result (λ ty. ty ≡ handler_type parameters.now) }
{
    let mut params = val_types(alloc, parameters)?;
    params.push(to_continuation(true, COMPUTATION))?;
    to_number(alloc, params)
}

/// The type of an effect's tag. It fails only for want of memory.
pub fn effect_type(alloc: Global, arguments: usize) -> Result<CompType, AllocError>
    ensures value { IfOk result (λ ty. ty ≡ effect_type arguments) }
{
    to_number(alloc, numbers(alloc, arguments)?)
}

/// The type of a clause's block. It fails only for want of memory.
pub fn clause_type(alloc: Global, arguments: usize) -> Result<CompType, AllocError>
    ensures value { IfOk result (λ ty. ty ≡ clause_type arguments) }
{
    let mut results = numbers(alloc, arguments)?;
    results.push(to_continuation(false, RESUMPTION))?;
    Ok(CompType::Func(FuncType {
        params: ListOf::new(alloc),
        results: ListOf::from_vec(results),
    }))
}
