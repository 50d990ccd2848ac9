//! Arguments against parameters.
ghost use Rattle.std.specs.Prelude.{◌≡◌, length};
ghost use Rattle.std.specs.Option.{option_copied, option_map};
ghost use Rattle.s_syntax.specs.ExprTree.{exprs};
ghost use Rattle.s_check.specs.Least.{least_of};
ghost use Rattle.s_check.specs.Rules.{is_reference, is_coroutine, is_resumption_of, suits, all_suit, against, for_function, for_effect, for_handler, for_handler_of_type, for_resumed};
ghost use Rattle.s_check.specs.Scopes.{type_in};
ghost use Rattle.s_check.specs.Views.{type_of};

use crate::bound::ValueType;
use crate::declarations::Declarations;
use crate::rule::{Rule, broken, broken_where};
use crate::scope::Scope;
use s_syntax::{Expr, Function, Handler, Name, Node, Parameter, VariableType};

// Whether a name has a type of references, where it is bound.
fn is_reference(ty: Option<ValueType<'_>>) -> bool
    ensures value { result ≡ is_reference (option_map type_of ty.entry) }
{
    match ty {
        Some(ValueType::Resumption(_)) => true,
        Some(ValueType::Coroutine) => true,
        Some(ValueType::Int) => false,
        None => false,
    }
}

/// Whether a name of this type stands for a coroutine.
pub(crate) fn is_coroutine(ty: Option<ValueType<'_>>) -> bool
    ensures value { result ≡ is_coroutine (option_map type_of ty.entry) }
{
    match ty {
        Some(ValueType::Coroutine) => true,
        Some(ValueType::Resumption(_)) => false,
        Some(ValueType::Int) => false,
        None => false,
    }
}

/// Whether a name of this type may stand for a resumption of the handler.
pub(crate) fn is_resumption_of<'a>(
    declarations: &Declarations<'a>,
    handler: &Name,
    ty: Option<ValueType<'a>>,
) -> bool
    ensures value { result ≡ is_resumption_of declarations.now handler.now (option_map type_of ty.entry) }
{
    match ty {
        Some(ValueType::Resumption(other)) => {
            other == handler || declarations.handler(other).is_none()
        }
        Some(ValueType::Int) => false,
        Some(ValueType::Coroutine) => false,
        None => false,
    }
}

// Whether an argument suits a parameter of the type.
fn suits<'a>(
    declarations: &Declarations<'a>,
    scope: &Scope<'a>,
    ty: &VariableType,
    argument: &'a Expr,
) -> bool
    ensures value { result ≡ suits declarations.now scope.now ty.now argument.now }
{
    match (ty, argument.node()) {
        (VariableType::Int, Node::Read(name)) => !is_reference(scope.find(name)),
        (VariableType::Int, _) => true,
        (VariableType::Resumption(handler), Node::Read(name)) => {
            is_resumption_of(declarations, handler, scope.find(name))
        }
        (VariableType::Resumption(_), _) => false,
        (VariableType::Coroutine, Node::Read(name)) => is_coroutine(scope.find(name)),
        (VariableType::Coroutine, _) => false,
    }
}

// Whether each argument suits its parameter.
fn all_suit<'a>(
    declarations: &Declarations<'a>,
    scope: &Scope<'a>,
    parameters: &[Parameter],
    arguments: &'a [Expr],
) -> bool
    requires as_many { length arguments.now ≡ length parameters.now }
    ensures value { result ≡ all_suit declarations.now scope.now parameters.now (exprs arguments.now) }
{
    for index in 0..parameters.len() {
        if !suits(
            declarations,
            scope,
            &parameters[index].ty,
            &arguments[index],
        ) {
            return false;
        }
    }
    true
}

// The least rule, with those that arguments break against these parameters.
fn against<'a>(
    declarations: &Declarations<'a>,
    scope: &Scope<'a>,
    parameters: &[Parameter],
    arguments: &'a [Expr],
    least: Option<Rule>,
) -> Option<Rule>
    ensures value { result ≡ least_of least (against declarations.now scope.now parameters.now (exprs arguments.now)) }
{
    if arguments.len() == parameters.len() {
        broken_where(
            !all_suit(declarations, scope, parameters, arguments),
            Rule::ArgumentOfOtherType,
            least,
        )
    } else {
        broken(Rule::OtherNumberOfArguments, least)
    }
}

/// The least rule, with those that arguments break for a function that is called or handled.
pub(crate) fn for_function<'a>(
    declarations: &Declarations<'a>,
    scope: &Scope<'a>,
    function: Option<&Function>,
    arguments: &'a [Expr],
    least: Option<Rule>,
) -> Option<Rule>
    ensures value { result ≡ least_of least (for_function declarations.now scope.now (option_copied function.entry) (exprs arguments.now)) }
{
    match function {
        Some(function) => against(
            declarations,
            scope,
            function.parameters.as_slice(),
            arguments,
            least,
        ),
        None => broken(Rule::NoFunction, least),
    }
}

/// The least rule, with those that arguments break for an effect that is performed.
pub(crate) fn for_effect(
    effect: Option<u64>,
    arguments: &[Expr],
    least: Option<Rule>,
) -> Option<Rule>
    ensures value { result ≡ least_of least (for_effect effect (exprs arguments.now)) }
{
    match effect {
        Some(number) => broken_where(
            arguments.len() as u64 != number,
            Rule::OtherNumberOfArguments,
            least,
        ),
        None => broken(Rule::NoEffect, least),
    }
}

/// The least rule, with those that arguments break for the handler of a `handle`.
pub(crate) fn for_handler<'a>(
    declarations: &Declarations<'a>,
    scope: &Scope<'a>,
    handler: Option<&Handler>,
    arguments: &'a [Expr],
    least: Option<Rule>,
) -> Option<Rule>
    ensures value { result ≡ least_of least (for_handler declarations.now scope.now (option_copied handler.entry) (exprs arguments.now)) }
{
    match handler {
        Some(handler) => against(
            declarations,
            scope,
            handler.parameters.as_slice(),
            arguments,
            least,
        ),
        None => broken(Rule::NoHandler, least),
    }
}

// The same for the handler of a type.
fn for_handler_of_type<'a>(
    declarations: &Declarations<'a>,
    scope: &Scope<'a>,
    handler: Option<&Handler>,
    arguments: &'a [Expr],
    least: Option<Rule>,
) -> Option<Rule>
    ensures value { result ≡ least_of least (for_handler_of_type declarations.now scope.now (option_copied handler.entry) (exprs arguments.now)) }
{
    match handler {
        Some(handler) => against(
            declarations,
            scope,
            handler.parameters.as_slice(),
            arguments,
            least,
        ),
        None => least,
    }
}

/// The least rule, with those that arguments break for the handler of the resumption that is resumed.
pub(crate) fn for_resumed<'a>(
    declarations: &Declarations<'a>,
    scope: &Scope<'a>,
    resumption: &'a Name,
    arguments: &'a [Expr],
    least: Option<Rule>,
) -> Option<Rule>
    ensures value { result ≡ least_of least (for_resumed declarations.now scope.now (type_in scope.now resumption.now) (exprs arguments.now)) }
{
    match scope.find(resumption) {
        Some(ValueType::Resumption(handler)) => {
            for_handler_of_type(
                declarations,
                scope,
                declarations.handler(handler),
                arguments,
                least,
            )
        }
        Some(ValueType::Int) => broken(Rule::NoResumption, least),
        Some(ValueType::Coroutine) => broken(Rule::NoResumption, least),
        None => broken(Rule::NameNotBound, least),
    }
}
