//! What is left of a budget after statements.
ghost use Rattle.std.specs.Prelude.{◌≡◌};
ghost use Rattle.s_syntax.specs.BlockOf.{statement_of};
ghost use Rattle.s_check.specs.Size.{use_size, statement_size, block_size};
ghost use Rattle.s_size.specs.Left.{left_after};

use crate::expression::{after, after_expr};
use s_syntax::{Block, Statement, Use};

// What is left of a budget after what a use counts beyond its statement.
fn after_use(budget: u32, what: &Use) -> Option<u32>
    ensures value { result ≡ left_after (use_size what.now) budget }
{
    match what {
        Use::Switch {
            number: _,
            coroutine: _,
            target: _,
        } => after(budget, 1),
        _ => Some(budget),
    }
}

// What is left of it after a statement.
#[cycle(statements)]
fn after_statement(budget: u32, statement: &Statement) -> Option<u32>
    ensures value { result ≡ left_after (statement_size (statement_of statement.now)) budget }
{
    let left = after(budget, 1)?;
    match statement {
        Statement::Evaluate { what, value } => after_expr(after_use(left, what)?, value),
        Statement::If {
            condition,
            then_block,
            else_block,
        } => {
            let left = after_block(after_expr(left, condition)?, then_block)?;
            after_block(left, else_block)
        }
        Statement::While { condition, body } => after_block(after_expr(left, condition)?, body),
        Statement::Fail => Some(left),
        Statement::Spawn {
            name: _,
            function: _,
        } => after(left, 1),
    }
}

/// What is left of it after a block.
#[cycle(statements)]
pub(crate) fn after_block(budget: u32, block: &Block) -> Option<u32>
    ensures value { result ≡ left_after (block_size block.now) budget }
{
    let mut left = budget;
    for statement in block.statements() {
        left = after_statement(left, statement)?;
    }
    Some(left)
}
