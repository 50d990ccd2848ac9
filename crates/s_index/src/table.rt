//! Lists of types in which none stands twice.
ghost use Rattle.std.specs.Prelude.{◌≡◌, [], ◌∷◌, ◌≤◌, ◌<◌, true, OnOk, IfOk, length};
ghost use Rattle.w_types.specs.declared.types.ValType.TheVariants.{I64};
ghost use Rattle.s_index.specs.Types.{same_kinds, same_type, place, with_type, first_types, from_to, to_continuation, coroutine_type};

use crate::types::coroutine_local;
use lists::ListOf;
use std::alloc::{AllocError, Global};
use w_syntax::are_one_type;
use w_types::{CompType, FuncType, PackedType};

// Whether lists of value types are one.
fn are_same_kinds(these: &[PackedType], those: &[PackedType]) -> bool
    ensures value { result ≡ same_kinds these.now those.now }
{
    if these.len() != those.len() {
        return false;
    }
    for index in 0..these.len() {
        if !are_one_type(these[index], those[index]) {
            return false;
        }
    }
    true
}

// Whether two types are one.
fn is_same_type(one: &CompType, other: &CompType) -> bool
    ensures value { result ≡ same_type one.now other.now }
{
    match (one, other) {
        (CompType::Func(one), CompType::Func(other)) => {
            are_same_kinds(one.params.as_slice(), other.params.as_slice())
                && are_same_kinds(one.results.as_slice(), other.results.as_slice())
        }
        (CompType::Cont(one), CompType::Cont(other)) => *one == *other,
        _ => false,
    }
}

/// The place of the first type that is this one; behind all where there is none.
pub(crate) fn place(types: &[CompType], wanted: &CompType) -> usize
    ensures value { result ≡ place wanted.now types.now }
    ensures within { result ≤ length types.now }
{
    for (index, ty) in types.iter().enumerate() {
        if is_same_type(ty, wanted) {
            return index;
        }
    }
    types.len()
}

/// Puts a type behind the others, where it isn't among them.
pub(crate) fn add_type(types: &mut Vec<CompType>, ty: CompType) -> Result<(), AllocError>
    ensures value { OnOk result (types.new.items ≡ with_type types.old.items ty) }
{
    if place(types.as_slice(), &ty) == types.len() {
        types.push(ty)?;
    }
    Ok(())
}

// The function type of these parameters and results.
fn from_to(params: Vec<PackedType>, results: Vec<PackedType>) -> CompType
    ensures value { result ≡ from_to params.items results.items }
{
    CompType::Func(FuncType {
        params: ListOf::from_vec(params),
        results: ListOf::from_vec(results),
    })
}

// One number.
fn number(alloc: Global) -> Result<Vec<PackedType>, AllocError>
    ensures value { IfOk result (λ types. types.items ≡ I64 ∷ []) }
{
    let mut types = Vec::new(alloc);
    types.push(PackedType::I64)?;
    Ok(types)
}

// What coroutines take: a number, and the coroutine that they were switched from.
fn number_and_coroutine(alloc: Global) -> Result<Vec<PackedType>, AllocError>
    ensures value { IfOk result (λ types. types.items ≡ I64 ∷ to_continuation true coroutine_type ∷ []) }
{
    let mut types = number(alloc)?;
    types.push(coroutine_local())?;
    Ok(types)
}

/// The types that each module begins with: resumptions, computations, the type of the printer, and coroutines.
pub(crate) fn first_types(alloc: Global) -> Result<Vec<CompType>, AllocError>
    ensures value { IfOk result (λ types. types.items ≡ first_types) }
{
    let mut types = Vec::new(alloc);
    types.push(from_to(number(alloc)?, number(alloc)?))?;
    types.push(CompType::Cont(0))?;
    types.push(from_to(Vec::new(alloc), number(alloc)?))?;
    types.push(CompType::Cont(2))?;
    types.push(from_to(number(alloc)?, Vec::new(alloc)))?;
    types.push(from_to(number_and_coroutine(alloc)?, number(alloc)?))?;
    types.push(CompType::Cont(5))?;
    Ok(types)
}
