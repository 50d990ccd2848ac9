//! The entry of a module: the function that is exported as main.
ghost use Rattle.std.specs.Prelude.{◌≡◌, slice_get};
ghost use Rattle.w_rules.specs.Spaces.{functions_of};
ghost use Rattle.w_syntax.specs.Functions.{type_at};
ghost use Rattle.w_reduce.specs.Start as start;

use w_rules::func_type;
use w_syntax::{ExternIndex, ExternType, Module};
use w_types::{FuncType, PackedType, ValType};

// Whether the types are those of integers.
fn are_integers(types: &[PackedType]) -> bool
    ensures { result ≡ start.are_integers types.now }
{
    for kind in types {
        if matches!(kind.whole(), ValType::Ref(_)) {
            return false;
        }
    }
    true
}

// Whether the type is `[]` to integers.
fn is_entry_type(kind: &FuncType) -> bool
    ensures { result ≡ start.is_entry_type kind.now }
{
    kind.params.len() == 0 && are_integers(kind.results.as_slice())
}

// The index of the type of a function of those that the module defines.
fn own_type_index(program: &Module, function: usize) -> Option<u32>
    ensures { result ≡ slice_get program.now.functions function }
{
    program.functions.as_slice().get(function).copied()
}

// The index of the type of a function. What is imported stands in front.
fn type_index(program: &Module, function: u32) -> Option<u32>
    ensures { result ≡ slice_get (functions_of program.now) function }
{
    let mut left = function as usize;
    for import in program.imports.as_slice() {
        if let ExternType::Func(index) = import.kind {
            if left == 0 {
                return Some(index);
            }
            left -= 1;
        }
    }
    own_type_index(program, left)
}

// The function, where its type is `[]` to integers.
fn entry_at(program: &Module, function: u32) -> Option<u32>
    ensures { result ≡ start.entry_at function (type_at program.now (slice_get (functions_of program.now) function)) }
{
    let index = type_index(program, function)?;
    let kind = func_type(program, index as usize)?;
    if is_entry_type(kind) {
        Some(function)
    } else {
        None
    }
}

// What is exported, where it is a function whose type is `[]` to integers.
fn entry_of(program: &Module, what: ExternIndex) -> Option<u32>
    ensures { result ≡ start.entry_of program.now what }
{
    match what {
        ExternIndex::Func(function) => entry_at(program, function),
        _ => None,
    }
}

/// The entry: the function that is exported as main, where its type is `[]` to integers.
pub fn entry(program: &Module) -> Option<u32>
    ensures { result ≡ start.entry program.now }
{
    for export in program.exports.as_slice() {
        if export.name.as_str() == "main" {
            return entry_of(program, export.index);
        }
    }
    None
}
