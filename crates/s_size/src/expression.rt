//! What is left of a budget after expressions.
ghost use Rattle.std.specs.Prelude.{◌≡◌};
ghost use Rattle.s_syntax.specs.ExprOf.{expr_of};
ghost use Rattle.s_syntax.specs.ExprTree.{exprs, operands};
ghost use Rattle.s_check.specs.Size.{expr_size, exprs_size, operands_size};
ghost use Rattle.s_size.specs.Left.{left_after};

use s_syntax::{BinaryOperator, Expr, Node};

/// What is left of a budget after a number, where it suffices.
pub(crate) fn after(budget: u32, count: usize) -> Option<u32>
    ensures value { result ≡ left_after count budget }
{
    if count <= budget as usize {
        Some(budget - count as u32)
    } else {
        None
    }
}

/// What is left of it after an expression.
#[cycle(expressions)]
pub(crate) fn after_expr(budget: u32, expr: &Expr) -> Option<u32>
    ensures value { result ≡ left_after (expr_size expr.now) budget }
{
    after_node(budget, expr.node())
}

// The operands of a run come before its first one, so that each run is counted before what stands within it.
#[cycle(expressions)]
fn after_node(budget: u32, node: &Node) -> Option<u32>
    ensures value { result ≡ left_after (expr_size (expr_of node.now)) budget }
{
    match node {
        Node::Literal(_) | Node::Read(_) => after(budget, 1),
        Node::Unary(_, operand)
        | Node::Group {
            function: _,
            argument: operand,
        } => after_expr(after(budget, 1)?, operand),
        Node::Run(first, rest) => after_expr(after_operands(budget, rest.as_slice())?, first),
        Node::Call {
            function: _,
            arguments,
        }
        | Node::Do {
            effect: _,
            arguments,
        } => after_exprs(after(budget, 1)?, arguments.as_slice()),
        Node::Handle {
            function: _,
            arguments,
            handler: _,
            parameters,
        } => {
            let left = after_exprs(after(budget, 1)?, arguments.as_slice())?;
            after_exprs(left, parameters.as_slice())
        }
        Node::Resume {
            resumption: _,
            argument,
            parameters,
        } => {
            let left = after_expr(after(budget, 1)?, argument)?;
            after_exprs(left, parameters.as_slice())
        }
    }
}

// What is left of it after expressions.
#[cycle(expressions)]
fn after_exprs(budget: u32, items: &[Expr]) -> Option<u32>
    ensures value { result ≡ left_after (exprs_size (exprs items.now)) budget }
{
    let mut left = budget;
    for item in items {
        left = after_expr(left, item)?;
    }
    Some(left)
}

// What is left of it after operands, each with the operator in front of it.
#[cycle(expressions)]
fn after_operands(budget: u32, rest: &[(BinaryOperator, Expr)]) -> Option<u32>
    ensures value { result ≡ left_after (operands_size (operands rest.now)) budget }
{
    let mut left = budget;
    for item in rest {
        left = after_expr(after(left, 1)?, &item.1)?;
    }
    Some(left)
}
