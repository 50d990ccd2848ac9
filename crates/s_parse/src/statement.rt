//! Statements and blocks.
ghost use Rattle.std.specs.Prelude.{◌≡◌, ◌<◌, ◌≤◌, length, drop};
ghost use Rattle.s_syntax.specs.BlockTree.{Fail};
ghost use Rattle.s_syntax.specs.BlockOf.{statement_of};
ghost use Rattle.s_syntax.specs.declared.token.Kind.TheVariants as kind;
ghost use Rattle.s_grammar.specs.Kinds.{kind_of};
ghost use Rattle.s_grammar.specs.Parts.{spawn_of};
ghost use Rattle.s_grammar.specs.Reading.{image, in_turn};
ghost use Rattle.s_grammar.specs.Reads.{expr, parenthesized_expr, block, statement_by, ended, led, key, name, assigned, evaluated};
ghost use Rattle.s_expr.specs.Places.{ReadsAt, ReadsAs};
ghost use Rattle.s_parse.specs.Items.{statement, statements, named_value, branches, or_done};

use s_expr::{Source, Stop, expect, expr_at, is_kind, kind_at, name_at, parenthesized_at};
use s_syntax::{Block, Expr, Kind, Name, Statement, Use};
use std::alloc::Global;

// An expression and a token of this kind. An expression that isn't answered goes by a call of `drop`, here and below: let go in place, each of its
// forms would be a case of this function's proof.
#[tactic(auto, unfolding(s_grammar::specs::Reads::ended))]
fn ended_at(source: &Source, at: usize, nest: usize, end: Kind) -> Result<(Expr, usize), Stop>
    requires within { at ≤ length source.now.tokens.now }
    ensures reads { ReadsAt (ended (expr source.now.bytes.now nest) end) source.now.tokens.now at result }
{
    let (value, at) = expr_at(source, at, nest)?;
    match expect(source, at, end) {
        Ok((_, at)) => Ok((value, at)),
        Err(stop) => {
            drop(value);
            Err(stop)
        }
    }
}

// What a let and an assignment have in common: a name, and behind it the value that it gets.
#[tactic(auto, unfolding(s_grammar::specs::Reads::led))]
fn named_value_at(source: &Source, at: usize, nest: usize) -> Result<((Name, Expr), usize), Stop>
    requires within { at ≤ length source.now.tokens.now }
    ensures reads { ReadsAt (named_value source.now.bytes.now nest) source.now.tokens.now at result }
{
    let (name, at) = name_at(source, at)?;
    let (_, at) = expect(source, at, Kind::Assign)?;
    let (value, at) = ended_at(source, at, nest, Kind::Semicolon)?;
    Ok(((name, value), at))
}

// A let.
#[tactic(auto, unfolding(s_grammar::specs::Reads::statement_by, s_grammar::specs::Reads::led))]
fn let_at(source: &Source, at: usize, nest: usize) -> Result<(Statement, usize), Stop>
    requires within { at ≤ length source.now.tokens.now }
    ensures reads { ReadsAs statement_of (statement_by source.now.bytes.now (expr source.now.bytes.now nest) (parenthesized_expr source.now.bytes.now nest) (block source.now.bytes.now nest) kind.Let) source.now.tokens.now at result }
{
    let (_, at) = expect(source, at, Kind::Let)?;
    let ((name, value), at) = named_value_at(source, at, nest)?;
    let what = Use::Let(name);
    Ok((Statement::Evaluate { what, value }, at))
}

// An assignment.
#[tactic(auto, unfolding(s_grammar::specs::Reads::assigned))]
fn assign_at(source: &Source, at: usize, nest: usize) -> Result<(Statement, usize), Stop>
    requires within { at ≤ length source.now.tokens.now }
    ensures reads { ReadsAs statement_of (assigned source.now.bytes.now (expr source.now.bytes.now nest)) source.now.tokens.now at result }
{
    let ((name, value), at) = named_value_at(source, at, nest)?;
    let what = Use::Assign(name);
    Ok((Statement::Evaluate { what, value }, at))
}

// An expression that is evaluated and dropped.
#[tactic(auto, unfolding(s_grammar::specs::Reads::evaluated))]
fn evaluate_at(source: &Source, at: usize, nest: usize) -> Result<(Statement, usize), Stop>
    requires within { at ≤ length source.now.tokens.now }
    ensures reads { ReadsAs statement_of (evaluated (expr source.now.bytes.now nest)) source.now.tokens.now at result }
{
    let (value, at) = ended_at(source, at, nest, Kind::Semicolon)?;
    let what = Use::Drop;
    Ok((Statement::Evaluate { what, value }, at))
}

// What is printed.
#[tactic(auto, unfolding(s_grammar::specs::Reads::statement_by, s_grammar::specs::Reads::led))]
fn print_at(source: &Source, at: usize, nest: usize) -> Result<(Statement, usize), Stop>
    requires within { at ≤ length source.now.tokens.now }
    ensures reads { ReadsAs statement_of (statement_by source.now.bytes.now (expr source.now.bytes.now nest) (parenthesized_expr source.now.bytes.now nest) (block source.now.bytes.now nest) kind.Print) source.now.tokens.now at result }
{
    let (_, at) = expect(source, at, Kind::Print)?;
    let (value, at) = ended_at(source, at, nest, Kind::Semicolon)?;
    let what = Use::Print;
    Ok((Statement::Evaluate { what, value }, at))
}

// What is returned.
#[tactic(auto, unfolding(s_grammar::specs::Reads::statement_by, s_grammar::specs::Reads::led))]
fn return_at(source: &Source, at: usize, nest: usize) -> Result<(Statement, usize), Stop>
    requires within { at ≤ length source.now.tokens.now }
    ensures reads { ReadsAs statement_of (statement_by source.now.bytes.now (expr source.now.bytes.now nest) (parenthesized_expr source.now.bytes.now nest) (block source.now.bytes.now nest) kind.Return) source.now.tokens.now at result }
{
    let (_, at) = expect(source, at, Kind::Return)?;
    let (value, at) = ended_at(source, at, nest, Kind::Semicolon)?;
    let what = Use::Return;
    Ok((Statement::Evaluate { what, value }, at))
}

// A name behind `=`, and a semicolon: that of what is stored, or of the function of a coroutine.
#[tactic(auto, unfolding(s_grammar::specs::Reads::led, s_grammar::specs::Reads::ended))]
fn assigned_name_at(source: &Source, at: usize) -> Result<(Name, usize), Stop>
    requires within { at ≤ length source.now.tokens.now }
    ensures reads { ReadsAt (led kind.Assign (ended (name source.now.bytes.now) kind.Semicolon)) source.now.tokens.now at result }
{
    let (_, at) = expect(source, at, Kind::Assign)?;
    let (name, at) = name_at(source, at)?;
    let (_, at) = expect(source, at, Kind::Semicolon)?;
    Ok((name, at))
}

// A resumption that is stored.
#[tactic(auto, unfolding(s_grammar::specs::Reads::statement_by, s_grammar::specs::Reads::led))]
fn store_at(source: &Source, at: usize, nest: usize) -> Result<(Statement, usize), Stop>
    requires within { at ≤ length source.now.tokens.now }
    ensures reads { ReadsAs statement_of (statement_by source.now.bytes.now (expr source.now.bytes.now nest) (parenthesized_expr source.now.bytes.now nest) (block source.now.bytes.now nest) kind.Store) source.now.tokens.now at result }
{
    let (_, at) = expect(source, at, Kind::Store)?;
    let (slots, at) = name_at(source, at)?;
    let (_, at) = expect(source, at, Kind::OpenBracket)?;
    let (value, at) = ended_at(source, at, nest, Kind::CloseBracket)?;
    match assigned_name_at(source, at) {
        Ok((name, at)) => {
            let what = Use::Store { slots, name };
            Ok((Statement::Evaluate { what, value }, at))
        }
        Err(stop) => {
            drop(value);
            Err(stop)
        }
    }
}

// The place that a resumption is taken from.
#[tactic(auto, unfolding(s_grammar::specs::Reads::ended))]
fn taken_at(source: &Source, at: usize, nest: usize) -> Result<(Expr, usize), Stop>
    requires within { at ≤ length source.now.tokens.now }
    ensures reads { ReadsAt (ended (ended (expr source.now.bytes.now nest) kind.CloseBracket) kind.Semicolon) source.now.tokens.now at result }
{
    let (value, at) = ended_at(source, at, nest, Kind::CloseBracket)?;
    match expect(source, at, Kind::Semicolon) {
        Ok((_, at)) => Ok((value, at)),
        Err(stop) => {
            drop(value);
            Err(stop)
        }
    }
}

// A resumption that is taken.
#[tactic(auto, unfolding(s_grammar::specs::Reads::statement_by, s_grammar::specs::Reads::led))]
fn take_at(source: &Source, at: usize, nest: usize) -> Result<(Statement, usize), Stop>
    requires within { at ≤ length source.now.tokens.now }
    ensures reads { ReadsAs statement_of (statement_by source.now.bytes.now (expr source.now.bytes.now nest) (parenthesized_expr source.now.bytes.now nest) (block source.now.bytes.now nest) kind.Take) source.now.tokens.now at result }
{
    let (_, at) = expect(source, at, Kind::Take)?;
    let (name, at) = name_at(source, at)?;
    let (_, at) = expect(source, at, Kind::Assign)?;
    let (slots, at) = name_at(source, at)?;
    let (_, at) = expect(source, at, Kind::OpenBracket)?;
    let (value, at) = taken_at(source, at, nest)?;
    let what = Use::Take { name, slots };
    Ok((Statement::Evaluate { what, value }, at))
}

// A coroutine that is made.
#[tactic(auto, unfolding(s_grammar::specs::Reads::led))]
fn spawn_at(source: &Source, at: usize) -> Result<(Statement, usize), Stop>
    requires within { at ≤ length source.now.tokens.now }
    ensures reads { ReadsAs statement_of (image spawn_of (led kind.Spawn (in_turn (name source.now.bytes.now) (led kind.Assign (ended (name source.now.bytes.now) kind.Semicolon))))) source.now.tokens.now at result }
{
    let (_, at) = expect(source, at, Kind::Spawn)?;
    let (name, at) = name_at(source, at)?;
    let (function, at) = assigned_name_at(source, at)?;
    Ok((Statement::Spawn { name, function }, at))
}

// The number that a switch hands on.
#[tactic(auto, unfolding(s_grammar::specs::Reads::ended))]
fn handed_at(source: &Source, at: usize, nest: usize) -> Result<(Expr, usize), Stop>
    requires within { at ≤ length source.now.tokens.now }
    ensures reads { ReadsAt (ended (parenthesized_expr source.now.bytes.now nest) kind.Semicolon) source.now.tokens.now at result }
{
    let (value, at) = parenthesized_at(source, at, nest)?;
    match expect(source, at, Kind::Semicolon) {
        Ok((_, at)) => Ok((value, at)),
        Err(stop) => {
            drop(value);
            Err(stop)
        }
    }
}

// A coroutine that is switched to.
#[tactic(auto, unfolding(s_grammar::specs::Reads::statement_by, s_grammar::specs::Reads::led))]
fn switch_at(source: &Source, at: usize, nest: usize) -> Result<(Statement, usize), Stop>
    requires within { at ≤ length source.now.tokens.now }
    ensures reads { ReadsAs statement_of (statement_by source.now.bytes.now (expr source.now.bytes.now nest) (parenthesized_expr source.now.bytes.now nest) (block source.now.bytes.now nest) kind.Switch) source.now.tokens.now at result }
{
    let (_, at) = expect(source, at, Kind::Switch)?;
    let (number, at) = name_at(source, at)?;
    let (_, at) = expect(source, at, Kind::Comma)?;
    let (coroutine, at) = name_at(source, at)?;
    let (_, at) = expect(source, at, Kind::Assign)?;
    let (target, at) = name_at(source, at)?;
    let (value, at) = handed_at(source, at, nest)?;
    let what = Use::Switch {
        number,
        coroutine,
        target,
    };
    Ok((Statement::Evaluate { what, value }, at))
}

// The statement that fails.
#[tactic(auto, unfolding(s_grammar::specs::Reads::led))]
fn fail_at(source: &Source, at: usize) -> Result<(Statement, usize), Stop>
    requires within { at ≤ length source.now.tokens.now }
    ensures reads { ReadsAs statement_of (image (λ _. Fail) (led kind.Fail (key kind.Semicolon))) source.now.tokens.now at result }
{
    let (_, at) = expect(source, at, Kind::Fail)?;
    let (_, at) = expect(source, at, Kind::Semicolon)?;
    Ok((Statement::Fail, at))
}

// The blocks of a choice, of which the second may be missing.
#[cycle(block)]
#[tactic(auto, unfolding(s_grammar::specs::Reads::led))]
fn branches_at(
    source: &Source,
    at: usize,
    nest: usize,
) -> Result<((Block, Option<Block>), usize), Stop>
    requires within { at ≤ length source.now.tokens.now }
    ensures reads { ReadsAt (branches source.now.bytes.now nest) source.now.tokens.now at result }
{
    let (then_block, at) = block_at(source, at, nest)?;
    if !is_kind(Kind::Else, kind_at(source, at)) {
        return Ok(((then_block, None), at));
    }
    let (_, at) = expect(source, at, Kind::Else)?;
    let (else_block, at) = block_at(source, at, nest)?;
    Ok(((then_block, Some(else_block)), at))
}

// A block that may be missing: it is empty then.
fn or_empty(alloc: Global, block: Option<Block>) -> Block
    ensures value { result ≡ or_done block }
{
    match block {
        Some(block) => block,
        None => Block::new(Vec::new(alloc)),
    }
}

// A choice.
#[cycle(block)]
#[tactic(auto, unfolding(s_grammar::specs::Reads::statement_by, s_grammar::specs::Reads::led), using(crate::proofs::Blocks::if_seen))]
fn if_at(source: &Source, at: usize, nest: usize) -> Result<(Statement, usize), Stop>
    requires within { at ≤ length source.now.tokens.now }
    ensures reads { ReadsAs statement_of (statement_by source.now.bytes.now (expr source.now.bytes.now nest) (parenthesized_expr source.now.bytes.now nest) (block source.now.bytes.now nest) kind.If) source.now.tokens.now at result }
{
    let (_, at) = expect(source, at, Kind::If)?;
    let (condition, at) = expr_at(source, at, nest)?;
    match branches_at(source, at, nest) {
        Ok(((then_block, otherwise), at)) => {
            let else_block = or_empty(source.alloc, otherwise);
            let statement = Statement::If {
                condition,
                then_block,
                else_block,
            };
            Ok((statement, at))
        }
        Err(stop) => {
            drop(condition);
            Err(stop)
        }
    }
}

// A loop.
#[cycle(block)]
#[tactic(auto, unfolding(s_grammar::specs::Reads::statement_by, s_grammar::specs::Reads::led))]
fn while_at(source: &Source, at: usize, nest: usize) -> Result<(Statement, usize), Stop>
    requires within { at ≤ length source.now.tokens.now }
    ensures reads { ReadsAs statement_of (statement_by source.now.bytes.now (expr source.now.bytes.now nest) (parenthesized_expr source.now.bytes.now nest) (block source.now.bytes.now nest) kind.While) source.now.tokens.now at result }
{
    let (_, at) = expect(source, at, Kind::While)?;
    let (condition, at) = expr_at(source, at, nest)?;
    match block_at(source, at, nest) {
        Ok((body, at)) => Ok((Statement::While { condition, body }, at)),
        Err(stop) => {
            drop(condition);
            Err(stop)
        }
    }
}

// A statement that begins with a name.
#[tactic(auto, unfolding(s_grammar::specs::Reads::statement_by), using(crate::proofs::Second::second_kind))]
fn named_at(source: &Source, at: usize, nest: usize) -> Result<(Statement, usize), Stop>
    requires within { at < length source.now.tokens.now }
    requires named { kind_of (drop at source.now.tokens.now) ≡ kind.Name }
    ensures reads { ReadsAs statement_of (statement_by source.now.bytes.now (expr source.now.bytes.now nest) (parenthesized_expr source.now.bytes.now nest) (block source.now.bytes.now nest) kind.Name) source.now.tokens.now at result }
{
    if is_kind(Kind::Assign, kind_at(source, at + 1)) {
        return assign_at(source, at, nest);
    }
    evaluate_at(source, at, nest)
}

// A statement.
#[cycle(block)]
#[tactic(auto, unfolding(crate::specs::Items::statement, s_grammar::specs::Reads::statement_by))]
fn statement_at(source: &Source, at: usize, nest: usize) -> Result<(Statement, usize), Stop>
    requires within { at ≤ length source.now.tokens.now }
    ensures reads { ReadsAs statement_of (statement source.now.bytes.now nest) source.now.tokens.now at result }
{
    if at >= source.tokens.len() {
        return evaluate_at(source, at, nest);
    }
    match kind_at(source, at) {
        Kind::Let => let_at(source, at, nest),
        Kind::If => if_at(source, at, nest),
        Kind::While => while_at(source, at, nest),
        Kind::Print => print_at(source, at, nest),
        Kind::Return => return_at(source, at, nest),
        Kind::Fail => fail_at(source, at),
        Kind::Store => store_at(source, at, nest),
        Kind::Take => take_at(source, at, nest),
        Kind::Spawn => spawn_at(source, at),
        Kind::Switch => switch_at(source, at, nest),
        Kind::Name => named_at(source, at, nest),
        _ => evaluate_at(source, at, nest),
    }
}

// Statements, up to the brace.
#[cycle(block)]
fn statements_at(source: &Source, start: usize, nest: usize) -> Result<(Block, usize), Stop>
    requires within { start ≤ length source.now.tokens.now }
    ensures reads { ReadsAt (statements source.now.bytes.now nest) source.now.tokens.now start result }
{
    let mut items = Vec::new(source.alloc);
    let mut at = start;
    'items: while !is_kind(Kind::CloseBrace, kind_at(source, at)) {
        let (item, next) = statement_at(source, at, nest)?;
        items.push(item)?;
        at = next;
    }
    Ok((Block::new(items), at))
}

/// A block, where so many brackets may be opened.
#[cycle(block)]
pub(crate) fn block_at(source: &Source, at: usize, nest: usize) -> Result<(Block, usize), Stop>
    requires within { at ≤ length source.now.tokens.now }
    ensures reads { ReadsAt (block source.now.bytes.now nest) source.now.tokens.now at result }
{
    let (_, inside) = expect(source, at, Kind::OpenBrace)?;
    if nest == 0 {
        return Err(Stop::TooDeep(at));
    }
    let (value, end) = statements_at(source, inside, nest - 1)?;
    let (_, end) = expect(source, end, Kind::CloseBrace)?;
    Ok((value, end))
}
