//! How many temporaries a body takes.
ghost use Rattle.std.specs.Prelude.{◌≡◌, ◌≤◌, ◌+◌};
ghost use Rattle.s_syntax.specs.BlockOf.{statement_of, block_of};
ghost use Rattle.s_syntax.specs.ExprOf.{expr_of};
ghost use Rattle.s_syntax.specs.ExprTree.{exprs, operands};
ghost use Rattle.s_check.specs.Size.{expr_size, exprs_size, operands_size, statement_size, block_size};
ghost use Rattle.s_code.specs.Temporaries.{high, high_args, high_aside, high_operands, room_of, high_statement, high_block};
ghost use Rattle.s_index.specs.Limits.{number_limit};

use s_syntax::{BinaryOperator, Block, Expr, Node, Statement, Use};

// The first temporary that an expression doesn't use, where so many are in use.
#[cycle(expressions)]
fn high(used: u32, expr: &Expr) -> u32
    requires { used + expr_size expr.now ≤ number_limit }
    ensures value { result ≡ high used expr.now }
{
    high_node(used, expr.node())
}

#[cycle(expressions)]
fn high_node(used: u32, node: &Node) -> u32
    requires { used + expr_size (expr_of node.now) ≤ number_limit }
    ensures value { result ≡ high used (expr_of node.now) }
{
    match node {
        Node::Literal(_) | Node::Read(_) => used,
        Node::Unary(_, operand) => high(used, operand),
        Node::Run(first, rest) => { high(used, first).max(high_operands(used, rest.as_slice())) }
        Node::Call {
            function: _,
            arguments,
        } => high_args(used, arguments.as_slice()),
        Node::Do {
            effect: _,
            arguments,
        } => high_args(used, arguments.as_slice()),
        Node::Handle {
            function: _,
            arguments,
            handler: _,
            parameters,
        } => {
            let aside = high_aside(used, arguments.as_slice());
            aside.max(high_args(used + arguments.len() as u32, parameters.as_slice()))
        }
        Node::Resume {
            resumption: _,
            argument,
            parameters,
        } => high(used, argument).max(high_args(used + 1, parameters.as_slice())),
        Node::Group {
            function: _,
            argument,
        } => high(used, argument),
    }
}

// That of arguments on the stack.
#[cycle(expressions)]
fn high_args(used: u32, items: &[Expr]) -> u32
    requires { used + exprs_size (exprs items.now) ≤ number_limit }
    ensures value { result ≡ high_args used (exprs items.now) }
{
    let mut most = 0;
    for item in items {
        most = most.max(high(used, item));
    }
    most.max(used)
}

// That of arguments that are put aside, each a temporary further.
#[cycle(expressions)]
fn high_aside(used: u32, items: &[Expr]) -> u32
    requires { used + exprs_size (exprs items.now) ≤ number_limit }
    ensures value { result ≡ high_aside used (exprs items.now) }
{
    let mut most = 0;
    let mut next = used;
    for item in items {
        most = most.max(high(next, item));
        next += 1;
    }
    most.max(next)
}

// That of operands.
#[cycle(expressions)]
fn high_operands(used: u32, rest: &[(BinaryOperator, Expr)]) -> u32
    requires { used + operands_size (operands rest.now) ≤ number_limit }
    ensures value { result ≡ high_operands used (operands rest.now) }
{
    let mut most = 0;
    for item in rest {
        most = most.max(high(used, &item.1));
    }
    most.max(used)
}

// How many temporaries the use of a value takes.
fn room(what: &Use) -> u32
    ensures value { result ≡ room_of what.now }
{
    match what {
        Use::Let(_) | Use::Assign(_) | Use::Print | Use::Return | Use::Drop => 0,
        Use::Switch {
            number: _,
            coroutine: _,
            target: _,
        } => 0,
        Use::Store { slots: _, name: _ } | Use::Take { name: _, slots: _ } => 1,
    }
}

// That of a statement.
#[cycle(statements)]
fn high_statement(statement: &Statement) -> u32
    requires { statement_size (statement_of statement.now) ≤ number_limit }
    ensures value { result ≡ high_statement (statement_of statement.now) }
{
    match statement {
        Statement::Evaluate { what, value } => high(0, value).max(room(what)),
        Statement::If {
            condition,
            then_block,
            else_block,
        } => high(0, condition).max(high_in_block(then_block).max(high_in_block(else_block))),
        Statement::While { condition, body } => high(0, condition).max(high_in_block(body)),
        Statement::Fail => 0,
        Statement::Spawn {
            name: _,
            function: _,
        } => 0,
    }
}

// How many temporaries a block takes.
#[cycle(statements)]
fn high_in_block(block: &Block) -> u32
    requires { block_size block.now ≤ number_limit }
    ensures value { result ≡ high_block block.now }
{
    let mut most = 0;
    for statement in block.statements() {
        most = most.max(high_statement(statement));
    }
    most
}

/// How many temporaries a body takes, at most its size.
#[tactic(auto, using(crate::proofs::Highs::block_high))]
pub fn high_block(body: &Block) -> u32
    requires { block_size body.now ≤ number_limit }
    ensures value { result ≡ high_block body.now }
    ensures few { result ≤ block_size body.now }
{
    high_in_block(body)
}
