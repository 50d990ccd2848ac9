//! The functions that some handle, group or spawn of a script names.
ghost use Rattle.std.specs.Prelude.{◌≡◌, ◌++◌, List, OnOk, IfOk};
ghost use Rattle.s_syntax.specs.declared.name.Name.{Name as TheName};
ghost use Rattle.s_syntax.specs.ExprOf.{expr_of};
ghost use Rattle.s_syntax.specs.ExprTree.{exprs, operands};
ghost use Rattle.s_syntax.specs.BlockOf.{statement_of, block_of};
ghost use Rattle.s_index.specs.Handled.{handled_in_expr, handled_in_exprs, handled_in_operands, handled_in_statement, handled_in_block, handled_in_clauses, handled_in_definition, handled_names};
ghost use Rattle.s_index.specs.Views.{names_of};

use s_syntax::{
    BinaryOperator, Block, Clause, Declaration, Definition, Expr, Name, Node, Statement,
};
use std::alloc::{AllocError, Global};

// Puts the names of the functions that an expression handles or groups behind those that are there.
#[cycle(expressions)]
fn push_in_expr<'a>(expr: &'a Expr, names: &mut Vec<&'a Name>) -> Result<(), AllocError>
    ensures value { OnOk result (names_of names.new.items ≡ names_of names.old.items ++ handled_in_expr expr.now) }
{
    push_in_node(expr.node(), names)
}

#[cycle(expressions)]
fn push_in_node<'a>(node: &'a Node, names: &mut Vec<&'a Name>) -> Result<(), AllocError>
    ensures value { OnOk result (names_of names.new.items ≡ names_of names.old.items ++ handled_in_expr (expr_of node.now)) }
{
    match node {
        Node::Literal(_) | Node::Read(_) => Ok(()),
        Node::Unary(_, operand) => push_in_expr(operand, names),
        Node::Run(first, rest) => {
            push_in_expr(first, names)?;
            push_in_operands(rest.as_slice(), names)
        }
        Node::Call {
            function: _,
            arguments,
        } => push_in_exprs(arguments.as_slice(), names),
        Node::Do {
            effect: _,
            arguments,
        } => push_in_exprs(arguments.as_slice(), names),
        Node::Handle {
            function,
            arguments,
            handler: _,
            parameters,
        } => {
            names.push(function)?;
            push_in_exprs(arguments.as_slice(), names)?;
            push_in_exprs(parameters.as_slice(), names)
        }
        Node::Resume {
            resumption: _,
            argument,
            parameters,
        } => {
            push_in_expr(argument, names)?;
            push_in_exprs(parameters.as_slice(), names)
        }
        Node::Group { function, argument } => {
            names.push(function)?;
            push_in_expr(argument, names)
        }
    }
}

// Those of expressions.
#[cycle(expressions)]
fn push_in_exprs<'a>(items: &'a [Expr], names: &mut Vec<&'a Name>) -> Result<(), AllocError>
    ensures value { OnOk result (names_of names.new.items ≡ names_of names.old.items ++ handled_in_exprs (exprs items.now)) }
{
    for item in items {
        push_in_expr(item, names)?;
    }
    Ok(())
}

// Those of operands.
#[cycle(expressions)]
fn push_in_operands<'a>(
    rest: &'a [(BinaryOperator, Expr)],
    names: &mut Vec<&'a Name>,
) -> Result<(), AllocError>
    ensures value { OnOk result (names_of names.new.items ≡ names_of names.old.items ++ handled_in_operands (operands rest.now)) }
{
    for item in rest {
        push_in_expr(&item.1, names)?;
    }
    Ok(())
}

// Those of a statement.
#[cycle(statements)]
fn push_in_statement<'a>(
    statement: &'a Statement,
    names: &mut Vec<&'a Name>,
) -> Result<(), AllocError>
    ensures value { OnOk result (names_of names.new.items ≡ names_of names.old.items ++ handled_in_statement (statement_of statement.now)) }
{
    match statement {
        Statement::Evaluate { what: _, value } => push_in_expr(value, names),
        Statement::If {
            condition,
            then_block,
            else_block,
        } => {
            push_in_expr(condition, names)?;
            push_in_block(then_block, names)?;
            push_in_block(else_block, names)
        }
        Statement::While { condition, body } => {
            push_in_expr(condition, names)?;
            push_in_block(body, names)
        }
        Statement::Fail => Ok(()),
        Statement::Spawn { name: _, function } => {
            names.push(function)?;
            Ok(())
        }
    }
}

// Those of a block.
#[cycle(statements)]
fn push_in_block<'a>(block: &'a Block, names: &mut Vec<&'a Name>) -> Result<(), AllocError>
    ensures value { OnOk result (names_of names.new.items ≡ names_of names.old.items ++ handled_in_block block.now) }
{
    for statement in block.statements() {
        push_in_statement(statement, names)?;
    }
    Ok(())
}

// Those of clauses.
fn push_in_clauses<'a>(clauses: &'a [Clause], names: &mut Vec<&'a Name>) -> Result<(), AllocError>
    ensures value { OnOk result (names_of names.new.items ≡ names_of names.old.items ++ handled_in_clauses clauses.now) }
{
    for clause in clauses {
        push_in_block(&clause.body, names)?;
    }
    Ok(())
}

// Those of a definition.
fn push_in_definition<'a>(
    definition: &'a Definition,
    names: &mut Vec<&'a Name>,
) -> Result<(), AllocError>
    ensures value { OnOk result (names_of names.new.items ≡ names_of names.old.items ++ handled_in_definition definition.now) }
{
    match definition {
        Definition::Effect(_) | Definition::Slots(_) => Ok(()),
        Definition::Function(function) => push_in_block(&function.body, names),
        Definition::Handler(handler) => {
            push_in_block(&handler.return_clause.body, names)?;
            push_in_clauses(handler.clauses.as_slice(), names)
        }
    }
}

/// The names of the functions that some handle, group or spawn names, in order. It fails only for want of memory.
pub(crate) fn handled_names(alloc: Global, all: &[Declaration]) -> Result<Vec<&Name>, AllocError>
    ensures value { IfOk result (λ names. names_of names.items ≡ handled_names all.now) }
{
    let mut names = Vec::new(alloc);
    for declaration in all {
        push_in_definition(&declaration.definition, &mut names)?;
    }
    Ok(names)
}
