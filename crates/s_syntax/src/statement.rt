//! Statements and blocks.

use crate::expr::Expr;
use crate::name::Name;
use std::marker::Model;

/// Statements, one after another. Contracts see their tree.
#[derive(Drop)]
#[cycle(block)]
pub struct Block {
    statements: Vec<Statement>,
}

/// What a statement does with the value of its expression.
#[derive(Drop)]
pub enum Use {
    /// `let name = value;`.
    Let(Name),
    /// `name = value;`.
    Assign(Name),
    /// `print value;`.
    Print,
    /// `return value;`.
    Return,
    /// `value;`, which is dropped.
    Drop,
    /// `store slots[value] = name;`.
    Store {
        slots: Name,
        name: Name,
    },
    /// `take name = slots[value];`.
    Take {
        name: Name,
        slots: Name,
    },
    /// `switch number, coroutine = target(value);`.
    Switch {
        number: Name,
        coroutine: Name,
        target: Name,
    },
}

/// A statement.
#[derive(Drop)]
#[cycle(block)]
pub enum Statement {
    /// An expression is evaluated, and its value used.
    Evaluate {
        what: Use,
        value: Expr,
    },
    /// `if condition then_block else else_block`; one that is written without `else` has no statements there.
    If {
        condition: Expr,
        then_block: Block,
        else_block: Block,
    },
    /// `while condition body`.
    While {
        condition: Expr,
        body: Block,
    },
    /// `fail;`.
    Fail,
    /// `spawn name = function;`.
    Spawn {
        name: Name,
        function: Name,
    },
}

impl Model for Block {
    ghost use Rattle.s_syntax.specs.BlockTree.{BlockTree};
    ghost use Rattle.s_syntax.specs.BlockCode.{block_code};

    ghost Value = { BlockTree };

    ghost coded = { block_code };

    ghost use Rattle.s_syntax.specs.BlockOf.{block_of};
    ghost use Rattle.s_syntax.specs.BlockTree.{depth};

    ghost view = { λ a. block_of a.statements.items };

    ghost size = { depth };

    ghost use Rattle.s_syntax.specs.BlockFalls.{block_falls};

    ghost size_decreases = { λ a h. block_falls a.statements.items };
}

impl Block {
    ghost use Rattle.std.specs.Prelude.{◌≡◌};
    ghost use Rattle.s_syntax.specs.BlockOf.{block_of};

    /// The block of these statements.
    pub fn new(statements: Vec<Statement>) -> Block
        ensures value { result ≡ block_of statements.items }
    {
        Block { statements }
    }

    /// Its statements.
    pub fn statements(&self) -> &[Statement]
        ensures value { block_of result.now ≡ self.now }
    {
        self.statements.as_slice()
    }
}
