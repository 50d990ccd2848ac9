//! Expressions.

use crate::name::Name;
use crate::number::Number;
use crate::operators::{BinaryOperator, UnaryOperator};
use std::marker::Model;

/// An expression. Parentheses leave nothing in it. Contracts see its tree.
#[derive(Drop)]
#[cycle(expr)]
pub struct Expr {
    node: Node,
}

/// What an expression is made of.
#[derive(Drop)]
#[cycle(expr)]
pub enum Node {
    /// A number as it is written.
    Literal(Number),
    /// The value of a name.
    Read(Name),
    /// An operand behind its operator.
    Unary(UnaryOperator, Box<Expr>),
    /// Operands with operators of one level between them, which group from the left: the first operand, and each further one with the
    /// operator before it.
    Run(Box<Expr>, Vec<(BinaryOperator, Expr)>),
    /// `function(arguments)`.
    Call {
        function: Name,
        arguments: Vec<Expr>,
    },
    /// `do effect(arguments)`.
    Do {
        effect: Name,
        arguments: Vec<Expr>,
    },
    /// `handle function(arguments) with handler(parameters)`.
    Handle {
        function: Name,
        arguments: Vec<Expr>,
        handler: Name,
        parameters: Vec<Expr>,
    },
    /// `resume resumption(argument) with (parameters)`.
    Resume {
        resumption: Name,
        argument: Box<Expr>,
        parameters: Vec<Expr>,
    },
    /// `group function(argument)`.
    Group {
        function: Name,
        argument: Box<Expr>,
    },
}

impl Model for Expr {
    ghost use Rattle.s_syntax.specs.ExprTree.{ExprTree};
    ghost use Rattle.s_syntax.specs.ExprCode.{expr_code};

    ghost Value = { ExprTree };

    ghost coded = { expr_code };

    ghost use Rattle.s_syntax.specs.ExprOf.{expr_of};
    ghost use Rattle.s_syntax.specs.ExprTree.{height};

    ghost view = { λ a. expr_of a.node };

    ghost size = { height };

    ghost use Rattle.s_syntax.specs.ExprFalls.{node_falls};

    ghost size_decreases = { λ a h. node_falls a.node };
}

impl Expr {
    ghost use Rattle.std.specs.Prelude.{◌≡◌};
    ghost use Rattle.s_syntax.specs.ExprOf.{expr_of};

    /// The expression of this node.
    pub fn new(node: Node) -> Expr
        ensures value { result ≡ expr_of node }
    {
        Expr { node }
    }

    /// What it is made of.
    pub fn node(&self) -> &Node
        ensures value { expr_of result.now ≡ self.now }
    {
        &self.node
    }
}
