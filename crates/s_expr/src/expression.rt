//! Expressions.
ghost use Rattle.std.specs.Prelude.{◌≡◌, ◌<◌, ◌≤◌, length, IfOk};
ghost use Rattle.s_syntax.specs.declared.token.Kind.TheVariants as kind;
ghost use Rattle.s_grammar.specs.Parts.{run_of};
ghost use Rattle.s_grammar.specs.Reading.{choice};
ghost use Rattle.s_grammar.specs.Reads.{expr, parenthesized_expr, run, primary_by, led, listed};
ghost use Rattle.s_expr.specs.declared.level.Level.TheVariants as level;
ghost use Rattle.s_expr.specs.Places.{ReadsAt, ReadsAs};
ghost use Rattle.s_expr.specs.Levels.{graded, operand, operands, arguments, below, operators, rank};

use crate::level::{Level, below, is_operator, operator_at};
use crate::source::Source;
use crate::stop::Stop;
use crate::token::{expect, int_at, is_kind, kind_at, name_at};
use s_syntax::{BinaryOperator, Expr, Kind, Node, UnaryOperator};
use std::alloc::{AllocError, Global};

// A run of operators, or the operand alone.
fn run_of(alloc: Global, first: Expr, rest: Vec<(BinaryOperator, Expr)>) -> Result<Expr, AllocError>
    ensures value { IfOk result (λ e. e ≡ run_of (first, rest.items)) }
{
    if rest.is_empty() {
        return Ok(first);
    }
    Ok(Expr::new(Node::Run(Box::new(alloc, first)?, rest)))
}

/// An expression, where so many brackets may be opened.
#[cycle(expr)]
#[tactic(auto, using(crate::proofs::LoosestLevel::expr_is))]
pub fn expr_at(source: &Source, at: usize, nest: usize) -> Result<(Expr, usize), Stop>
    requires within { at ≤ length source.now.tokens.now }
    ensures reads { ReadsAt (expr source.now.bytes.now nest) source.now.tokens.now at result }
{
    graded_at(source, at, nest, Level::Or)
}

// An expression of the level.
#[cycle(expr)]
#[tactic(auto, unfolding(crate::specs::Levels::graded, s_grammar::specs::Reads::expr_by, s_grammar::specs::Reads::ands, s_grammar::specs::Reads::compares, s_grammar::specs::Reads::sums, s_grammar::specs::Reads::products))]
fn graded_at(source: &Source, at: usize, nest: usize, level: Level) -> Result<(Expr, usize), Stop>
    requires within { at ≤ length source.now.tokens.now }
    ensures reads { ReadsAt (graded source.now.bytes.now nest level) source.now.tokens.now at result }
{
    match level {
        Level::Unary => unary_at(source, at, nest),
        Level::Comparison => comparison_at(source, at, nest),
        Level::Or => run_at(source, at, nest, Level::Or),
        Level::And => run_at(source, at, nest, Level::And),
        Level::Sum => run_at(source, at, nest, Level::Sum),
        Level::Product => run_at(source, at, nest, Level::Product),
    }
}

// A run of operators of the level.
#[cycle(expr)]
#[tactic(auto, unfolding(s_grammar::specs::Reads::run, crate::specs::Levels::operands, crate::specs::Levels::operand))]
fn run_at(source: &Source, at: usize, nest: usize, level: Level) -> Result<(Expr, usize), Stop>
    requires within { at ≤ length source.now.tokens.now }
    requires tighter { rank (below level) < rank level }
    ensures reads { ReadsAt (run (operators level) (graded source.now.bytes.now nest (below level))) source.now.tokens.now at result }
{
    let (first, at) = graded_at(source, at, nest, below(level))?;
    let (rest, at) = operands_at(source, at, nest, level)?;
    Ok((run_of(source.alloc, first, rest)?, at))
}

// A comparison, or a sum.
#[cycle(expr)]
#[tactic(auto, unfolding(crate::specs::Levels::graded, s_grammar::specs::Reads::once, s_grammar::specs::Reads::compares, crate::specs::Levels::operand))]
fn comparison_at(source: &Source, at: usize, nest: usize) -> Result<(Expr, usize), Stop>
    requires within { at ≤ length source.now.tokens.now }
    ensures reads { ReadsAt (graded source.now.bytes.now nest level.Comparison) source.now.tokens.now at result }
{
    let (first, at) = graded_at(source, at, nest, Level::Sum)?;
    if !is_operator(Level::Comparison, kind_at(source, at)) {
        return Ok((first, at));
    }
    let (item, at) = operand_at(source, at, nest, Level::Comparison)?;
    let mut rest = Vec::new(source.alloc);
    rest.push(item)?;
    Ok((run_of(source.alloc, first, rest)?, at))
}

// An operator of the level, and an operand.
#[cycle(expr)]
#[tactic(auto, unfolding(crate::specs::Levels::operand))]
fn operand_at(
    source: &Source,
    at: usize,
    nest: usize,
    level: Level,
) -> Result<((BinaryOperator, Expr), usize), Stop>
    requires within { at ≤ length source.now.tokens.now }
    requires tighter { rank (below level) < rank level }
    ensures reads { ReadsAt (operand source.now.bytes.now nest level) source.now.tokens.now at result }
{
    let (operator, at) = operator_at(source, at, level)?;
    let (value, at) = graded_at(source, at, nest, below(level))?;
    Ok(((operator, value), at))
}

// Operators of the level, each with an operand.
#[cycle(expr)]
fn operands_at(
    source: &Source,
    start: usize,
    nest: usize,
    level: Level,
) -> Result<(Vec<(BinaryOperator, Expr)>, usize), Stop>
    requires within { start ≤ length source.now.tokens.now }
    requires tighter { rank (below level) < rank level }
    ensures reads { ReadsAs (λ v. v.items) (operands source.now.bytes.now nest level) source.now.tokens.now start result }
{
    let mut items = Vec::new(source.alloc);
    let mut at = start;
    'items: while is_operator(level, kind_at(source, at)) {
        let (item, next) = operand_at(source, at, nest, level)?;
        items.push(item)?;
        at = next;
    }
    Ok((items, at))
}

// An operand, with an operator before it or none.
#[cycle(expr)]
#[tactic(auto, unfolding(crate::specs::Levels::graded, s_grammar::specs::Reads::unary_by, s_grammar::specs::Reads::led))]
fn unary_at(source: &Source, at: usize, nest: usize) -> Result<(Expr, usize), Stop>
    requires within { at ≤ length source.now.tokens.now }
    ensures reads { ReadsAt (graded source.now.bytes.now nest level.Unary) source.now.tokens.now at result }
{
    match kind_at(source, at) {
        Kind::Minus => {
            let (_, at) = expect(source, at, Kind::Minus)?;
            let (value, at) = primary_at(source, at, nest)?;
            let value = Box::new(source.alloc, value)?;
            Ok((Expr::new(Node::Unary(UnaryOperator::Minus, value)), at))
        }
        Kind::Not => {
            let (_, at) = expect(source, at, Kind::Not)?;
            let (value, at) = primary_at(source, at, nest)?;
            let value = Box::new(source.alloc, value)?;
            Ok((Expr::new(Node::Unary(UnaryOperator::Not, value)), at))
        }
        _ => primary_at(source, at, nest),
    }
}

// An operand.
#[cycle(expr)]
#[tactic(auto, unfolding(s_grammar::specs::Reads::primary_by))]
fn primary_at(source: &Source, at: usize, nest: usize) -> Result<(Expr, usize), Stop>
    requires within { at ≤ length source.now.tokens.now }
    ensures reads { ReadsAt (choice (primary_by source.now.bytes.now (parenthesized_expr source.now.bytes.now nest) (arguments source.now.bytes.now nest))) source.now.tokens.now at result }
{
    match kind_at(source, at) {
        Kind::Name => name_or_call_at(source, at, nest),
        Kind::OpenParenthesis => parenthesized_at(source, at, nest),
        Kind::Do => do_at(source, at, nest),
        Kind::Handle => handle_at(source, at, nest),
        Kind::Resume => resume_at(source, at, nest),
        Kind::Group => group_at(source, at, nest),
        _ => {
            let (number, at) = int_at(source, at)?;
            Ok((Expr::new(Node::Literal(number)), at))
        }
    }
}

// A name, or a call.
#[cycle(expr)]
#[tactic(auto, unfolding(s_grammar::specs::Reads::primary_by))]
fn name_or_call_at(source: &Source, at: usize, nest: usize) -> Result<(Expr, usize), Stop>
    requires within { at ≤ length source.now.tokens.now }
    ensures reads { ReadsAt (primary_by source.now.bytes.now (parenthesized_expr source.now.bytes.now nest) (arguments source.now.bytes.now nest) kind.Name) source.now.tokens.now at result }
{
    let (name, at) = name_at(source, at)?;
    if !is_kind(Kind::OpenParenthesis, kind_at(source, at)) {
        return Ok((Expr::new(Node::Read(name)), at));
    }
    let (items, at) = arguments_at(source, at, nest)?;
    Ok((
        Expr::new(Node::Call {
            function: name,
            arguments: items,
        }),
        at,
    ))
}

// An effect that is performed.
#[cycle(expr)]
#[tactic(auto, unfolding(s_grammar::specs::Reads::primary_by, s_grammar::specs::Reads::led))]
fn do_at(source: &Source, at: usize, nest: usize) -> Result<(Expr, usize), Stop>
    requires within { at ≤ length source.now.tokens.now }
    ensures reads { ReadsAt (primary_by source.now.bytes.now (parenthesized_expr source.now.bytes.now nest) (arguments source.now.bytes.now nest) kind.Do) source.now.tokens.now at result }
{
    let (_, at) = expect(source, at, Kind::Do)?;
    let (name, at) = name_at(source, at)?;
    let (items, at) = arguments_at(source, at, nest)?;
    Ok((
        Expr::new(Node::Do {
            effect: name,
            arguments: items,
        }),
        at,
    ))
}

// A call under a handler.
#[cycle(expr)]
#[tactic(auto, unfolding(s_grammar::specs::Reads::primary_by, s_grammar::specs::Reads::led))]
fn handle_at(source: &Source, at: usize, nest: usize) -> Result<(Expr, usize), Stop>
    requires within { at ≤ length source.now.tokens.now }
    ensures reads { ReadsAt (primary_by source.now.bytes.now (parenthesized_expr source.now.bytes.now nest) (arguments source.now.bytes.now nest) kind.Handle) source.now.tokens.now at result }
{
    let (_, at) = expect(source, at, Kind::Handle)?;
    let (function, at) = name_at(source, at)?;
    let (items, at) = arguments_at(source, at, nest)?;
    let (_, at) = expect(source, at, Kind::With)?;
    let (handler, at) = name_at(source, at)?;
    let (parameters, at) = arguments_at(source, at, nest)?;
    Ok((
        Expr::new(Node::Handle {
            function,
            arguments: items,
            handler,
            parameters,
        }),
        at,
    ))
}

// A resumption that is resumed.
#[cycle(expr)]
#[tactic(auto, unfolding(s_grammar::specs::Reads::primary_by, s_grammar::specs::Reads::led))]
fn resume_at(source: &Source, at: usize, nest: usize) -> Result<(Expr, usize), Stop>
    requires within { at ≤ length source.now.tokens.now }
    ensures reads { ReadsAt (primary_by source.now.bytes.now (parenthesized_expr source.now.bytes.now nest) (arguments source.now.bytes.now nest) kind.Resume) source.now.tokens.now at result }
{
    let (_, at) = expect(source, at, Kind::Resume)?;
    let (name, at) = name_at(source, at)?;
    let (value, at) = parenthesized_at(source, at, nest)?;
    let value = Box::new(source.alloc, value)?;
    let (_, at) = expect(source, at, Kind::With)?;
    let (items, at) = arguments_at(source, at, nest)?;
    Ok((
        Expr::new(Node::Resume {
            resumption: name,
            argument: value,
            parameters: items,
        }),
        at,
    ))
}

// A call in a group.
#[cycle(expr)]
#[tactic(auto, unfolding(s_grammar::specs::Reads::primary_by, s_grammar::specs::Reads::led))]
fn group_at(source: &Source, at: usize, nest: usize) -> Result<(Expr, usize), Stop>
    requires within { at ≤ length source.now.tokens.now }
    ensures reads { ReadsAt (primary_by source.now.bytes.now (parenthesized_expr source.now.bytes.now nest) (arguments source.now.bytes.now nest) kind.Group) source.now.tokens.now at result }
{
    let (_, at) = expect(source, at, Kind::Group)?;
    let (function, at) = name_at(source, at)?;
    let (value, at) = parenthesized_at(source, at, nest)?;
    let argument = Box::new(source.alloc, value)?;
    Ok((Expr::new(Node::Group { function, argument }), at))
}

/// An expression in parentheses, which count among those that may be opened.
#[cycle(expr)]
pub fn parenthesized_at(source: &Source, at: usize, nest: usize) -> Result<(Expr, usize), Stop>
    requires within { at ≤ length source.now.tokens.now }
    ensures reads { ReadsAt (parenthesized_expr source.now.bytes.now nest) source.now.tokens.now at result }
{
    let (_, inside) = expect(source, at, Kind::OpenParenthesis)?;
    if nest == 0 {
        return Err(Stop::TooDeep(at));
    }
    let (value, end) = expr_at(source, inside, nest - 1)?;
    let (_, end) = expect(source, end, Kind::CloseParenthesis)?;
    Ok((value, end))
}

// Arguments in parentheses.
#[cycle(expr)]
fn arguments_at(source: &Source, at: usize, nest: usize) -> Result<(Vec<Expr>, usize), Stop>
    requires within { at ≤ length source.now.tokens.now }
    ensures reads { ReadsAs (λ v. v.items) (arguments source.now.bytes.now nest) source.now.tokens.now at result }
{
    let (_, inside) = expect(source, at, Kind::OpenParenthesis)?;
    if nest == 0 {
        return Err(Stop::TooDeep(at));
    }
    let (items, end) = listed_at(source, inside, nest - 1)?;
    let (_, end) = expect(source, end, Kind::CloseParenthesis)?;
    Ok((items, end))
}

// A comma, and an expression.
#[cycle(expr)]
#[tactic(auto, unfolding(s_grammar::specs::Reads::led))]
fn comma_item_at(source: &Source, at: usize, nest: usize) -> Result<(Expr, usize), Stop>
    requires within { at ≤ length source.now.tokens.now }
    ensures reads { ReadsAt (led kind.Comma (expr source.now.bytes.now nest)) source.now.tokens.now at result }
{
    let (_, at) = expect(source, at, Kind::Comma)?;
    expr_at(source, at, nest)
}

// Expressions with commas between, up to the parenthesis. `s_parse` has one such reader for items of any kind; it goes by a trait, and no
// recursion through a trait is proved.
#[cycle(expr)]
fn listed_at(source: &Source, start: usize, nest: usize) -> Result<(Vec<Expr>, usize), Stop>
    requires within { start ≤ length source.now.tokens.now }
    ensures reads { ReadsAs (λ v. v.items) (listed (expr source.now.bytes.now nest)) source.now.tokens.now start result }
{
    let mut items = Vec::new(source.alloc);
    if is_kind(Kind::CloseParenthesis, kind_at(source, start)) {
        return Ok((items, start));
    }
    let (first, mut at) = expr_at(source, start, nest)?;
    items.push(first)?;
    'items: while is_kind(Kind::Comma, kind_at(source, at)) {
        let (item, next) = comma_item_at(source, at, nest)?;
        items.push(item)?;
        at = next;
    }
    Ok((items, at))
}
