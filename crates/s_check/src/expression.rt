//! Expressions.
ghost use Rattle.std.specs.Prelude.{◌≡◌, true, false};
ghost use Rattle.s_syntax.specs.ExprTree.{exprs, operands};
ghost use Rattle.s_syntax.specs.ExprOf.{expr_of};
ghost use Rattle.s_check.specs.Least.{least_of};
ghost use Rattle.s_check.specs.Rules.{in_name, in_expr, in_exprs, in_operands};
ghost use Rattle.s_check.specs.Parts.{in_call, in_start, in_rest};
ghost use Rattle.s_check.specs.Scopes.{type_in};

use crate::arguments::{for_effect, for_function, for_handler, for_resumed};
use crate::bound::ValueType;
use crate::coroutines::for_grouped;
use crate::declarations::Declarations;
use crate::rule::{Rule, broken, broken_where};
use crate::scope::Scope;
use s_syntax::{BinaryOperator, Expr, Name, Node};

// The least rule, with those that the reading of a name breaks.
fn in_name<'a>(scope: &Scope<'a>, whole: bool, name: &'a Name, least: Option<Rule>) -> Option<Rule>
    ensures value { result ≡ least_of least (in_name whole (type_in scope.now name.now)) }
{
    match scope.find(name) {
        Some(ValueType::Int) => least,
        Some(ValueType::Resumption(_)) => broken_where(!whole, Rule::ResumptionElsewhere, least),
        Some(ValueType::Coroutine) => broken_where(!whole, Rule::ResumptionElsewhere, least),
        None => broken(Rule::NameNotBound, least),
    }
}

/// The least rule, with those that an expression breaks, which is a whole argument for a parameter or isn't.
#[cycle(expressions)]
#[tactic(auto, using(crate::proofs::Expressions::in_both))]
pub(crate) fn in_expr<'a>(
    declarations: &Declarations<'a>,
    scope: &Scope<'a>,
    whole: bool,
    expr: &'a Expr,
    least: Option<Rule>,
) -> Option<Rule>
    ensures value { result ≡ least_of least (in_expr declarations.now scope.now whole expr.now) }
{
    let node = expr.node();
    let least = in_start(declarations, scope, whole, node, least);
    in_rest(declarations, scope, node, least)
}

// The least rule, with those that an expression breaks before its further operands and before a `with`.
#[cycle(expressions)]
#[tactic(auto, using(crate::proofs::Least::least_append))]
fn in_start<'a>(
    declarations: &Declarations<'a>,
    scope: &Scope<'a>,
    whole: bool,
    node: &'a Node,
    least: Option<Rule>,
) -> Option<Rule>
    ensures value { result ≡ least_of least (in_start declarations.now scope.now whole (expr_of node.now)) }
{
    match node {
        Node::Literal(_) => least,
        Node::Read(name) => in_name(scope, whole, name, least),
        Node::Unary(_, operand)
        | Node::Run(operand, _)
        | Node::Resume {
            resumption: _,
            argument: operand,
            parameters: _,
        } => in_expr(declarations, scope, false, operand, least),
        Node::Call {
            function,
            arguments,
        }
        | Node::Handle {
            function,
            arguments,
            handler: _,
            parameters: _,
        } => in_call(declarations, scope, function, arguments.as_slice(), least),
        Node::Do { effect, arguments } => {
            let least = for_effect(declarations.effect(effect), arguments.as_slice(), least);
            in_exprs(declarations, scope, false, arguments.as_slice(), least)
        }
        Node::Group { function, argument } => {
            let least = for_grouped(declarations.function(function), least);
            in_expr(declarations, scope, false, argument, least)
        }
    }
}

// The least rule, with those that its further operands break, or what stands behind its `with`.
#[cycle(expressions)]
#[tactic(auto, using(crate::proofs::Least::least_append))]
fn in_rest<'a>(
    declarations: &Declarations<'a>,
    scope: &Scope<'a>,
    node: &'a Node,
    least: Option<Rule>,
) -> Option<Rule>
    ensures value { result ≡ least_of least (in_rest declarations.now scope.now (expr_of node.now)) }
{
    match node {
        Node::Run(_, rest) => in_operands(declarations, scope, rest.as_slice(), least),
        Node::Handle {
            function: _,
            arguments: _,
            handler,
            parameters,
        } => {
            let handler = declarations.handler(handler);
            let least = for_handler(declarations, scope, handler, parameters.as_slice(), least);
            in_exprs(declarations, scope, true, parameters.as_slice(), least)
        }
        Node::Resume {
            resumption,
            argument: _,
            parameters,
        } => {
            let parameters = parameters.as_slice();
            let least = for_resumed(declarations, scope, resumption, parameters, least);
            in_exprs(declarations, scope, true, parameters, least)
        }
        _ => least,
    }
}

// The least rule, with those that a function breaks which is called or handled, and its arguments.
#[cycle(expressions)]
#[tactic(auto, using(crate::proofs::Least::least_append))]
fn in_call<'a>(
    declarations: &Declarations<'a>,
    scope: &Scope<'a>,
    function: &'a Name,
    arguments: &'a [Expr],
    least: Option<Rule>,
) -> Option<Rule>
    ensures value { result ≡ least_of least (in_call declarations.now scope.now function.now (exprs arguments.now)) }
{
    let function = declarations.function(function);
    let least = for_function(declarations, scope, function, arguments, least);
    in_exprs(declarations, scope, true, arguments, least)
}

// The least rule, with those that expressions break.
#[cycle(expressions)]
fn in_exprs<'a>(
    declarations: &Declarations<'a>,
    scope: &Scope<'a>,
    whole: bool,
    items: &'a [Expr],
    least: Option<Rule>,
) -> Option<Rule>
    ensures value { result ≡ least_of least (in_exprs declarations.now scope.now whole (exprs items.now)) }
{
    let mut least = least;
    for item in items {
        least = in_expr(declarations, scope, whole, item, least);
    }
    least
}

// The least rule, with those that operands break.
#[cycle(expressions)]
fn in_operands<'a>(
    declarations: &Declarations<'a>,
    scope: &Scope<'a>,
    rest: &'a [(BinaryOperator, Expr)],
    least: Option<Rule>,
) -> Option<Rule>
    ensures value { result ≡ least_of least (in_operands declarations.now scope.now (operands rest.now)) }
{
    let mut least = least;
    for item in rest {
        least = in_expr(declarations, scope, false, &item.1, least);
    }
    least
}
