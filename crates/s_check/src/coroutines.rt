//! Coroutines: which functions run as such, and what is switched to.
ghost use Rattle.std.specs.Prelude.{◌≡◌};
ghost use Rattle.std.specs.Option.{option_copied};
ghost use Rattle.s_check.specs.Least.{least_of};
ghost use Rattle.s_check.specs.Rules.{takes_number, takes_both, for_grouped, for_spawned, for_switched};
ghost use Rattle.s_check.specs.Scopes.{type_in};

use crate::bound::ValueType;
use crate::rule::{Rule, broken, broken_where};
use crate::scope::Scope;
use s_syntax::{Function, Name, Parameter, VariableType};

// Whether there is just a number.
fn takes_number(parameters: &[Parameter]) -> bool
    ensures value { result ≡ takes_number parameters.now }
{
    match parameters {
        [only] => matches!(&only.ty, VariableType::Int),
        _ => false,
    }
}

// Whether there are just a number and a coroutine.
fn takes_both(parameters: &[Parameter]) -> bool
    ensures value { result ≡ takes_both parameters.now }
{
    match parameters {
        [first, second] => {
            matches!(&first.ty, VariableType::Int) && matches!(&second.ty, VariableType::Coroutine)
        }
        _ => false,
    }
}

/// The least rule, with that which is broken by the function of a group.
pub(crate) fn for_grouped(function: Option<&Function>, least: Option<Rule>) -> Option<Rule>
    ensures value { result ≡ least_of least (for_grouped (option_copied function.entry)) }
{
    match function {
        Some(function) => broken_where(
            !takes_number(function.parameters.as_slice()),
            Rule::OtherParameters,
            least,
        ),
        None => broken(Rule::NoFunction, least),
    }
}

/// The least rule, with that which is broken by the function that is spawned.
pub(crate) fn for_spawned(function: Option<&Function>, least: Option<Rule>) -> Option<Rule>
    ensures value { result ≡ least_of least (for_spawned (option_copied function.entry)) }
{
    match function {
        Some(function) => broken_where(
            !takes_both(function.parameters.as_slice()),
            Rule::OtherParameters,
            least,
        ),
        None => broken(Rule::NoFunction, least),
    }
}

/// The least rule, with that which is broken by the target of a switch.
pub(crate) fn for_switched<'a>(
    scope: &Scope<'a>,
    target: &'a Name,
    least: Option<Rule>,
) -> Option<Rule>
    ensures value { result ≡ least_of least (for_switched (type_in scope.now target.now)) }
{
    match scope.find(target) {
        Some(ValueType::Coroutine) => least,
        Some(ValueType::Int) => broken(Rule::NoCoroutine, least),
        Some(ValueType::Resumption(_)) => broken(Rule::NoCoroutine, least),
        None => broken(Rule::NameNotBound, least),
    }
}
