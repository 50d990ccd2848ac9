//! Operators by level.
ghost use Rattle.std.specs.Prelude.{◌≡◌, ◌≤◌, length};
ghost use Rattle.s_grammar.specs.Reading.{one};
ghost use Rattle.s_grammar.specs.Operators.{operator_of, operator_of_kind};
ghost use Rattle.s_expr.specs.Places.{ReadsAt};
ghost use Rattle.s_expr.specs.Levels.{below, operators};

use crate::source::Source;
use crate::stop::Stop;
use s_syntax::{Arithmetic, BinaryOperator, Comparison, Connective, Kind};

/// How tightly operators bind, the loosest first.
#[derive(Clone, Copy)]
pub(crate) enum Level {
    Or,
    And,
    Comparison,
    Sum,
    Product,
    Unary,
}

/// The level that binds tighter by one.
pub(crate) fn below(level: Level) -> Level
    ensures value { result ≡ below level }
{
    match level {
        Level::Or => Level::And,
        Level::And => Level::Comparison,
        Level::Comparison => Level::Sum,
        Level::Sum => Level::Product,
        Level::Product | Level::Unary => Level::Unary,
    }
}

/// Whether tokens of this kind are operators of the level.
pub(crate) fn is_operator(level: Level, kind: Kind) -> bool
    ensures answer { result ≡ operators level kind }
{
    match level {
        Level::Or => matches!(kind, Kind::Or),
        Level::And => matches!(kind, Kind::And),
        Level::Comparison => matches!(
            kind,
            Kind::Equal | Kind::NotEqual | Kind::Less | Kind::AtMost | Kind::Greater | Kind::AtLeast
        ),
        Level::Sum => matches!(kind, Kind::Plus | Kind::Minus),
        Level::Product => matches!(kind, Kind::Star | Kind::Slash | Kind::Percent),
        Level::Unary => false,
    }
}

// The operator of a kind, which is one of an operator.
fn operator(kind: Kind) -> BinaryOperator
    ensures value { result ≡ operator_of_kind kind }
{
    match kind {
        Kind::Or => BinaryOperator::Connects(Connective::Or),
        Kind::And => BinaryOperator::Connects(Connective::And),
        Kind::Equal => BinaryOperator::Compares(Comparison::Equal),
        Kind::NotEqual => BinaryOperator::Compares(Comparison::NotEqual),
        Kind::Less => BinaryOperator::Compares(Comparison::Less),
        Kind::AtMost => BinaryOperator::Compares(Comparison::AtMost),
        Kind::Greater => BinaryOperator::Compares(Comparison::Greater),
        Kind::AtLeast => BinaryOperator::Compares(Comparison::AtLeast),
        Kind::Plus => BinaryOperator::Computes(Arithmetic::Add),
        Kind::Minus => BinaryOperator::Computes(Arithmetic::Subtract),
        Kind::Star => BinaryOperator::Computes(Arithmetic::Multiply),
        Kind::Slash => BinaryOperator::Computes(Arithmetic::Divide),
        _ => BinaryOperator::Computes(Arithmetic::Remainder),
    }
}

/// An operator of the level.
pub(crate) fn operator_at(
    source: &Source,
    at: usize,
    level: Level,
) -> Result<(BinaryOperator, usize), Stop>
    requires within { at ≤ length source.now.tokens.now }
    ensures reads { ReadsAt (one (operators level) operator_of) source.now.tokens.now at result }
{
    if at >= source.tokens.len() {
        return Err(Stop::Wrong(at));
    }
    let token = source.tokens[at];
    if !is_operator(level, token.kind) {
        return Err(Stop::Wrong(at));
    }
    Ok((operator(token.kind), at + 1))
}
