//! The code of expressions.
ghost use Rattle.std.specs.Prelude.{◌≡◌, ◌≤◌, ◌+◌, suc, OnOk, IfOk};
ghost use Rattle.w_syntax.specs.Code.{Code};
ghost use Rattle.s_syntax.specs.declared.name.Name.{Name as TheName};
ghost use Rattle.s_syntax.specs.ExprOf.{expr_of};
ghost use Rattle.s_syntax.specs.ExprTree.{exprs, operands};
ghost use Rattle.s_check.specs.Size.{expr_size, exprs_size, operands_size};
ghost use Rattle.s_code.specs.Expressions.{aside, operator as operator_code, reload, begin, wake, expr, args, set_aside, operands as operands_code, set_parameters, tail_resume, handler_index_of};
ghost use Rattle.s_code.specs.Instructions.{connective as connective_code, truth};
ghost use Rattle.s_code.specs.Layouts.{handler_of_name};
ghost use Rattle.s_code.specs.Writes.{Writes};
ghost use Rattle.s_index.specs.Limits.{number_limit};

use crate::coroutines::write_group;
use crate::layout::Layout;
use crate::operators::{
    write_arithmetic, write_comparison, write_control, write_get, write_numeric, write_op,
    write_set, write_switching, write_token, write_truth, write_unary,
};
use s_index::{COMPUTATION, Program, RESUMPTION};
use s_syntax::{BinaryOperator, Connective, Expr, Name, Node};
use std::alloc::AllocError;
use w_syntax::{BlockType, ControlOp, IntType, NumericOp, Op, ReferenceOp, SwitchingOp, Token};
use w_types::PackedType;

// Writes the reading of arguments that lie in their places.
fn write_reload<'a>(
    layout: &Layout<'a>,
    used: u32,
    items: &'a [Expr],
    out: &mut Vec<Token>,
) -> Result<(), AllocError>
    requires { layout.now.temporaries + used + exprs_size (exprs items.now) ≤ number_limit }
    ensures writes { OnOk result ((c : Code) → Writes out.old.items (reload layout.now used (exprs items.now) c) out.new.items c) }
{
    let mut next = used;
    for item in items {
        write_get(layout.slot(next, item), out)?;
        next += 1;
    }
    Ok(())
}

// Writes what makes a computation of a function whose arguments are on the stack.
fn write_begin<'a>(
    program: &Program<'a>,
    function: &'a Name,
    out: &mut Vec<Token>,
) -> Result<(), AllocError>
    ensures writes { OnOk result ((c : Code) → Writes out.old.items (begin program.now function.now c) out.new.items c) }
{
    let continuation = program.continuation_index(function)?;
    let index = program.function_index(function);
    write_op(Op::Reference(ReferenceOp::Func(index)), out)?;
    write_switching(SwitchingOp::ContNew(continuation), out)?;
    write_switching(SwitchingOp::ContBind(continuation, COMPUTATION), out)
}

// Writes what makes a computation of a resumption that gets the number on the stack.
fn write_wake<'a>(
    layout: &Layout<'a>,
    resumption: &'a Name,
    out: &mut Vec<Token>,
) -> Result<(), AllocError>
    ensures writes { OnOk result ((c : Code) → Writes out.old.items (wake layout.now resumption.now c) out.new.items c) }
{
    write_get(layout.local_number(resumption), out)?;
    write_switching(SwitchingOp::ContBind(RESUMPTION, COMPUTATION), out)
}

// The index of the function of the handler of a resumption.
fn handler_index<'a>(program: &Program<'a>, layout: &Layout<'a>, resumption: &'a Name) -> u32
    ensures value { result ≡ handler_index_of program.now (handler_of_name layout.now resumption.now) }
{
    match layout.handler_of_name(resumption) {
        Some(handler) => program.handler_index(handler),
        None => 0,
    }
}

/// Writes an expression, where so many temporaries are in use. It fails only for want of memory.
#[cycle(expressions)]
pub(crate) fn write_expr<'a>(
    program: &Program<'a>,
    layout: &Layout<'a>,
    used: u32,
    expression: &'a Expr,
    out: &mut Vec<Token>,
) -> Result<(), AllocError>
    requires { layout.now.temporaries + used + expr_size expression.now ≤ number_limit }
    ensures writes { OnOk result ((c : Code) → Writes out.old.items (expr program.now layout.now used expression.now c) out.new.items c) }
{
    write_node(program, layout, used, expression.node(), out)
}

#[cycle(expressions)]
fn write_node<'a>(
    program: &Program<'a>,
    layout: &Layout<'a>,
    used: u32,
    node: &'a Node,
    out: &mut Vec<Token>,
) -> Result<(), AllocError>
    requires { layout.now.temporaries + used + expr_size (expr_of node.now) ≤ number_limit }
    ensures writes { OnOk result ((c : Code) → Writes out.old.items (expr program.now layout.now used (expr_of node.now) c) out.new.items c) }
{
    match node {
        Node::Literal(number) => write_numeric(NumericOp::I64Const(number.value as i64), out),
        Node::Read(name) => write_get(layout.local_number(name), out),
        Node::Unary(operator, operand) => {
            write_expr(program, layout, used, operand, out)?;
            write_unary(*operator, out)
        }
        Node::Run(first, rest) => {
            write_expr(program, layout, used, first, out)?;
            write_operands(program, layout, used, rest.as_slice(), out)
        }
        Node::Call {
            function,
            arguments,
        } => {
            write_args(program, layout, used, arguments.as_slice(), out)?;
            write_control(ControlOp::Call(program.function_index(function)), out)
        }
        Node::Do { effect, arguments } => {
            write_args(program, layout, used, arguments.as_slice(), out)?;
            write_switching(SwitchingOp::Suspend(program.tag_index(effect)), out)
        }
        Node::Handle {
            function,
            arguments,
            handler,
            parameters,
        } => {
            let arguments = arguments.as_slice();
            write_aside(program, layout, used, arguments, out)?;
            let next = used + arguments.len() as u32;
            write_args(program, layout, next, parameters.as_slice(), out)?;
            write_reload(layout, used, arguments, out)?;
            write_begin(program, function, out)?;
            write_control(ControlOp::Call(program.handler_index(handler)), out)
        }
        Node::Resume {
            resumption,
            argument,
            parameters,
        } => {
            let temporary = layout.temporaries() + used;
            write_expr(program, layout, used, argument, out)?;
            write_set(temporary, out)?;
            write_args(program, layout, used + 1, parameters.as_slice(), out)?;
            write_get(temporary, out)?;
            write_wake(layout, resumption, out)?;
            write_control(
                ControlOp::Call(handler_index(program, layout, resumption)),
                out,
            )
        }
        Node::Group { function, argument } => {
            write_expr(program, layout, used, argument, out)?;
            write_group(program, function, out)
        }
    }
}

/// Writes arguments, which stay on the stack.
#[cycle(expressions)]
pub(crate) fn write_args<'a>(
    program: &Program<'a>,
    layout: &Layout<'a>,
    used: u32,
    items: &'a [Expr],
    out: &mut Vec<Token>,
) -> Result<(), AllocError>
    requires { layout.now.temporaries + used + exprs_size (exprs items.now) ≤ number_limit }
    ensures writes { OnOk result ((c : Code) → Writes out.old.items (args program.now layout.now used (exprs items.now) c) out.new.items c) }
{
    for item in items {
        write_expr(program, layout, used, item, out)?;
    }
    Ok(())
}

// Writes an argument that is put where it lies until all arguments are there.
#[cycle(expressions)]
fn write_one_aside<'a>(
    program: &Program<'a>,
    layout: &Layout<'a>,
    used: u32,
    item: &'a Expr,
    out: &mut Vec<Token>,
) -> Result<(), AllocError>
    requires { layout.now.temporaries + used + expr_size item.now ≤ number_limit }
    ensures writes { OnOk result ((c : Code) → Writes out.old.items (aside layout.now used item.now (λ (k : Code). expr program.now layout.now used item.now k) c) out.new.items c) }
{
    if layout.stays(item) {
        return write_control(ControlOp::Nop, out);
    }
    write_expr(program, layout, used, item, out)?;
    write_set(layout.temporaries() + used, out)
}

// Writes arguments, each of which is put where it lies until all are there.
#[cycle(expressions)]
fn write_aside<'a>(
    program: &Program<'a>,
    layout: &Layout<'a>,
    used: u32,
    items: &'a [Expr],
    out: &mut Vec<Token>,
) -> Result<(), AllocError>
    requires { layout.now.temporaries + used + exprs_size (exprs items.now) ≤ number_limit }
    ensures writes { OnOk result ((c : Code) → Writes out.old.items (set_aside program.now layout.now used (exprs items.now) c) out.new.items c) }
{
    let mut next = used;
    for item in items {
        write_one_aside(program, layout, next, item, out)?;
        next += 1;
    }
    Ok(())
}

// Writes a connective behind its left operand.
#[cycle(expressions)]
fn write_connective<'a>(
    program: &Program<'a>,
    layout: &Layout<'a>,
    used: u32,
    connective: Connective,
    right: &'a Expr,
    out: &mut Vec<Token>,
) -> Result<(), AllocError>
    requires { layout.now.temporaries + used + expr_size right.now ≤ number_limit }
    ensures writes { OnOk result ((c : Code) → Writes out.old.items (connective_code connective (expr program.now layout.now used right.now truth) c) out.new.items c) }
{
    write_numeric(NumericOp::Eqz(IntType::I64), out)?;
    write_token(Token::If(BlockType::Value(PackedType::I64)), out)?;
    match connective {
        Connective::And => {
            write_numeric(NumericOp::I64Const(0), out)?;
            write_token(Token::Else, out)?;
            write_expr(program, layout, used, right, out)?;
            write_truth(out)?;
            write_token(Token::End, out)?;
            Ok(())
        }
        Connective::Or => {
            write_expr(program, layout, used, right, out)?;
            write_truth(out)?;
            write_token(Token::Else, out)?;
            write_numeric(NumericOp::I64Const(1), out)?;
            write_token(Token::End, out)?;
            Ok(())
        }
    }
}

// Writes an operator behind its left operand, with its right one.
#[cycle(expressions)]
fn write_operand<'a>(
    program: &Program<'a>,
    layout: &Layout<'a>,
    used: u32,
    operator: BinaryOperator,
    right: &'a Expr,
    out: &mut Vec<Token>,
) -> Result<(), AllocError>
    requires { layout.now.temporaries + used + expr_size right.now ≤ number_limit }
    ensures writes { OnOk result ((c : Code) → Writes out.old.items (operator_code operator (λ (k : Code). expr program.now layout.now used right.now k) c) out.new.items c) }
{
    match operator {
        BinaryOperator::Connects(connective) => {
            write_connective(program, layout, used, connective, right, out)
        }
        BinaryOperator::Compares(comparison) => {
            write_expr(program, layout, used, right, out)?;
            write_comparison(comparison, out)
        }
        BinaryOperator::Computes(arithmetic) => {
            write_expr(program, layout, used, right, out)?;
            write_arithmetic(arithmetic, out)
        }
    }
}

// Writes operators behind their left operand.
#[cycle(expressions)]
fn write_operands<'a>(
    program: &Program<'a>,
    layout: &Layout<'a>,
    used: u32,
    rest: &'a [(BinaryOperator, Expr)],
    out: &mut Vec<Token>,
) -> Result<(), AllocError>
    requires { layout.now.temporaries + used + operands_size (operands rest.now) ≤ number_limit }
    ensures writes { OnOk result ((c : Code) → Writes out.old.items (operands_code program.now layout.now used (operands rest.now) c) out.new.items c) }
{
    for item in rest {
        write_operand(program, layout, used, item.0, &item.1, out)?;
    }
    Ok(())
}

// Writes the setting of a handler's parameters from the stack, the last one first.
fn write_set_parameters(count: u32, out: &mut Vec<Token>) -> Result<(), AllocError>
    ensures writes { OnOk result ((c : Code) → Writes out.old.items (set_parameters count c) out.new.items c) }
{
    for behind in 0..count {
        write_set(count - 1 - behind, out)?;
    }
    Ok(())
}

/// Writes a resume that goes on with the next turn of the handler's loop, so many labels inside it. It fails only for want of memory.
pub(crate) fn write_tail_resume<'a>(
    program: &Program<'a>,
    layout: &Layout<'a>,
    labels: u32,
    resumption: &'a Name,
    argument: &'a Expr,
    parameters: &'a [Expr],
    out: &mut Vec<Token>,
) -> Result<(), AllocError>
    requires { layout.now.temporaries + 1 + expr_size argument.now + exprs_size (exprs parameters.now) ≤ number_limit }
    ensures writes { OnOk result ((c : Code) → Writes out.old.items (tail_resume program.now layout.now labels resumption.now argument.now (exprs parameters.now) c) out.new.items c) }
{
    write_expr(program, layout, 0, argument, out)?;
    write_set(layout.temporaries(), out)?;
    write_args(program, layout, 1, parameters, out)?;
    write_get(layout.temporaries(), out)?;
    write_wake(layout, resumption, out)?;
    write_set(layout.owner_parameters(), out)?;
    write_set_parameters(layout.owner_parameters(), out)?;
    write_control(ControlOp::Br(labels), out)
}
