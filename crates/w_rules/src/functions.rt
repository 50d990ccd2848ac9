//! The functions of a module, by their indices.
ghost use Rattle.std.specs.Prelude.{◌≡◌};
ghost use Rattle.std.specs.Option.{option_copied};
ghost use Rattle.w_syntax.specs.Functions.{func_type, type_of_function};

use w_syntax::Module;
use w_types::{CompType, FuncType};

/// The function type of this index (Core, types, function types), where the type of this index is one.
pub fn func_type(candidate: &Module, index: usize) -> Option<&FuncType>
    ensures { option_copied result ≡ func_type candidate.now index }
{
    match candidate.types.get(index) {
        Some(CompType::Func(kind)) => Some(kind),
        Some(CompType::Cont(_)) | None => None,
    }
}

/// The type of the function of this index (Core, modules, functions), where its index of a type is that of a function type.
pub fn function_type(candidate: &Module, index: usize) -> Option<&FuncType>
    ensures { option_copied result ≡ type_of_function candidate.now index }
{
    let kind = *candidate.functions.as_slice().get(index)?;
    func_type(candidate, kind as usize)
}
