//! The code of statements and blocks.
ghost use Rattle.std.specs.Prelude.{◌≡◌, ◌≤◌, ◌+◌, OnOk};
ghost use Rattle.w_syntax.specs.Code.{Code, Done};
ghost use Rattle.s_syntax.specs.BlockTree.{If, While};
ghost use Rattle.s_syntax.specs.BlockOf.{statement_of, block_of};
ghost use Rattle.s_check.specs.Size.{expr_size, statement_size, block_size};
ghost use Rattle.s_code.specs.Statements.{return as return_code, evaluate as evaluate_code, statement as statement_code, block as block_code, body as body_code, ending};
ghost use Rattle.s_code.specs.Writes.{Writes};
ghost use Rattle.s_index.specs.Limits.{number_limit};

use crate::coroutines::{write_spawn, write_switch};
use crate::expression::{write_args, write_expr, write_tail_resume};
use crate::layout::Layout;
use crate::operators::{write_control, write_numeric, write_op, write_set, write_token};
use crate::slots::{write_store, write_take};
use s_index::Program;
use s_syntax::{Block, Expr, Node, Statement, Use};
use std::alloc::AllocError;
use w_syntax::{BlockKind, BlockType, ControlOp, IntType, NumericOp, Op, ParametricOp, Token};

// The function that prints.
const PRINTER: u32 = 0;

// Writes a return of an expression: of a resume of the own handler's resumption the next turn of its loop, and of a call a tail call.
fn write_return<'a>(
    program: &Program<'a>,
    layout: &Layout<'a>,
    labels: u32,
    value: &'a Expr,
    out: &mut Vec<Token>,
) -> Result<(), AllocError>
    requires { layout.now.temporaries + 1 + expr_size value.now ≤ number_limit }
    ensures writes { OnOk result ((c : Code) → Writes out.old.items (return_code program.now layout.now labels value.now c) out.new.items c) }
{
    if let Node::Resume {
        resumption,
        argument,
        parameters,
    } = value.node()
    {
        if layout.is_own(resumption) {
            let parameters = parameters.as_slice();
            return write_tail_resume(
                program, layout, labels, resumption, argument, parameters, out,
            );
        }
    }
    if let Node::Call {
        function,
        arguments,
    } = value.node()
    {
        write_args(program, layout, 0, arguments.as_slice(), out)?;
        return write_control(ControlOp::ReturnCall(program.function_index(function)), out);
    }
    write_expr(program, layout, 0, value, out)?;
    write_control(ControlOp::Return, out)
}

// Writes an expression, and then what its value is used for.
fn write_evaluate<'a>(
    program: &Program<'a>,
    layout: &Layout<'a>,
    labels: u32,
    what: &'a Use,
    value: &'a Expr,
    out: &mut Vec<Token>,
) -> Result<(), AllocError>
    requires { layout.now.temporaries + 1 + expr_size value.now ≤ 1000000 }
    ensures writes { OnOk result ((c : Code) → Writes out.old.items (evaluate_code program.now layout.now labels what.now value.now c) out.new.items c) }
{
    match what {
        Use::Let(name) | Use::Assign(name) => {
            write_expr(program, layout, 0, value, out)?;
            write_set(layout.local_number(name), out)
        }
        Use::Print => {
            write_expr(program, layout, 0, value, out)?;
            write_control(ControlOp::Call(PRINTER), out)
        }
        Use::Return => write_return(program, layout, labels, value, out),
        Use::Drop => {
            write_expr(program, layout, 0, value, out)?;
            write_op(Op::Parametric(ParametricOp::Drop), out)
        }
        Use::Store { slots, name } => {
            write_expr(program, layout, 0, value, out)?;
            write_store(program, layout, slots, name, out)
        }
        Use::Take { name, slots } => {
            write_expr(program, layout, 0, value, out)?;
            write_take(program, layout, name, slots, out)
        }
        Use::Switch {
            number,
            coroutine,
            target,
        } => {
            write_expr(program, layout, 0, value, out)?;
            write_switch(program, layout, number, coroutine, target, out)
        }
    }
}

// Writes an if, whose branches are exchanged, since the condition is compared with 0.
#[cycle(statements)]
fn write_if<'a>(
    program: &Program<'a>,
    layout: &Layout<'a>,
    labels: u32,
    condition: &'a Expr,
    then_block: &'a Block,
    else_block: &'a Block,
    out: &mut Vec<Token>,
) -> Result<(), AllocError>
    requires { layout.now.temporaries + labels + statement_size (If condition.now then_block.now else_block.now) ≤ number_limit }
    ensures writes { OnOk result ((c : Code) → Writes out.old.items (statement_code program.now layout.now labels (If condition.now then_block.now else_block.now) c) out.new.items c) }
{
    write_expr(program, layout, 0, condition, out)?;
    write_numeric(NumericOp::Eqz(IntType::I64), out)?;
    write_token(Token::If(BlockType::Empty), out)?;
    write_block(program, layout, labels + 1, else_block, out)?;
    write_token(Token::Else, out)?;
    write_block(program, layout, labels + 1, then_block, out)?;
    write_token(Token::End, out)?;
    Ok(())
}

// Writes a while: a loop in a block, which is left where the condition is 0.
#[cycle(statements)]
fn write_while<'a>(
    program: &Program<'a>,
    layout: &Layout<'a>,
    labels: u32,
    condition: &'a Expr,
    body: &'a Block,
    out: &mut Vec<Token>,
) -> Result<(), AllocError>
    requires { layout.now.temporaries + labels + statement_size (While condition.now body.now) ≤ number_limit }
    ensures writes { OnOk result ((c : Code) → Writes out.old.items (statement_code program.now layout.now labels (While condition.now body.now) c) out.new.items c) }
{
    write_token(Token::Block(BlockKind::Block, BlockType::Empty), out)?;
    write_token(Token::Block(BlockKind::Loop, BlockType::Empty), out)?;
    write_expr(program, layout, 0, condition, out)?;
    write_numeric(NumericOp::Eqz(IntType::I64), out)?;
    write_control(ControlOp::BrIf(1), out)?;
    write_block(program, layout, labels + 2, body, out)?;
    write_control(ControlOp::Br(0), out)?;
    write_token(Token::End, out)?;
    write_token(Token::End, out)?;
    Ok(())
}

// Writes a statement, so many labels around it.
#[cycle(statements)]
fn write_statement<'a>(
    program: &Program<'a>,
    layout: &Layout<'a>,
    labels: u32,
    statement: &'a Statement,
    out: &mut Vec<Token>,
) -> Result<(), AllocError>
    requires { layout.now.temporaries + labels + statement_size (statement_of statement.now) ≤ number_limit }
    ensures writes { OnOk result ((c : Code) → Writes out.old.items (statement_code program.now layout.now labels (statement_of statement.now) c) out.new.items c) }
{
    match statement {
        Statement::Evaluate { what, value } => {
            write_evaluate(program, layout, labels, what, value, out)
        }
        Statement::If {
            condition,
            then_block,
            else_block,
        } => write_if(
            program, layout, labels, condition, then_block, else_block, out,
        ),
        Statement::While { condition, body } => {
            write_while(program, layout, labels, condition, body, out)
        }
        Statement::Fail => write_control(ControlOp::Unreachable, out),
        Statement::Spawn { name, function } => write_spawn(program, layout, name, function, out),
    }
}

// Writes statements, so many labels around them.
#[cycle(statements)]
fn write_block<'a>(
    program: &Program<'a>,
    layout: &Layout<'a>,
    labels: u32,
    block: &'a Block,
    out: &mut Vec<Token>,
) -> Result<(), AllocError>
    requires { layout.now.temporaries + labels + block_size block.now ≤ number_limit }
    ensures writes { OnOk result ((c : Code) → Writes out.old.items (block_code program.now layout.now labels block.now c) out.new.items c) }
{
    for statement in block.statements() {
        write_statement(program, layout, labels, statement, out)?;
    }
    Ok(())
}

/// Writes a body, which ends its sequence. It fails only for want of memory.
pub(crate) fn write_body<'a>(
    program: &Program<'a>,
    layout: &Layout<'a>,
    labels: u32,
    body: &'a Block,
    out: &mut Vec<Token>,
) -> Result<(), AllocError>
    requires { layout.now.temporaries + labels + block_size body.now ≤ number_limit }
    ensures writes { OnOk result (Writes out.old.items (body_code program.now layout.now labels body.now) out.new.items Done) }
{
    write_block(program, layout, labels, body, out)?;
    write_numeric(NumericOp::I64Const(0), out)?;
    write_control(ControlOp::Return, out)
}
