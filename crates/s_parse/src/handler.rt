//! Clauses of handlers.
ghost use Rattle.std.specs.Prelude.{◌≡◌, ◌≤◌, length, drop};
ghost use Rattle.s_grammar.specs.Reads.{clause, return_clause, clauses};
ghost use Rattle.s_expr.specs.Places.{ReadsAt};
ghost use Rattle.s_parse.specs.Items.{effect_clauses, braced_clauses};

use crate::parameter::{names_at, value_name_at};
use crate::statement::block_at;
use lists::ListOf;
use s_expr::{Source, Stop, expect, is_kind, kind_at, name_at};
use s_syntax::{Clause, Kind, ReturnClause};

// What a handler does for an effect.
#[tactic(auto, unfolding(s_grammar::specs::Reads::clause, s_grammar::specs::Reads::led))]
fn clause_at(source: &Source, at: usize, nest: usize) -> Result<(Clause, usize), Stop>
    requires within { at ≤ length source.now.tokens.now }
    ensures reads { ReadsAt (clause source.now.bytes.now nest) source.now.tokens.now at result }
{
    let (_, at) = expect(source, at, Kind::On)?;
    let (effect, at) = name_at(source, at)?;
    let (arguments, at) = names_at(source, at, nest)?;
    let (resumption, at) = name_at(source, at)?;
    let (body, at) = block_at(source, at, nest)?;
    Ok((
        Clause {
            effect,
            arguments,
            resumption,
            body,
        },
        at,
    ))
}

// The clauses of a handler for effects.
fn effect_clauses_at(
    source: &Source,
    start: usize,
    nest: usize,
) -> Result<(ListOf<Clause>, usize), Stop>
    requires within { start ≤ length source.now.tokens.now }
    ensures reads { ReadsAt (effect_clauses source.now.bytes.now nest) source.now.tokens.now start result }
{
    let mut items = ListOf::new(source.alloc);
    let mut at = start;
    'items: while is_kind(Kind::On, kind_at(source, at)) {
        let (item, next) = clause_at(source, at, nest)?;
        items.push(item)?;
        at = next;
    }
    Ok((items, at))
}

// What a handler does where what it handles returns.
#[tactic(auto, unfolding(s_grammar::specs::Reads::return_clause, s_grammar::specs::Reads::led))]
fn return_clause_at(source: &Source, at: usize, nest: usize) -> Result<(ReturnClause, usize), Stop>
    requires within { at ≤ length source.now.tokens.now }
    ensures reads { ReadsAt (return_clause source.now.bytes.now nest) source.now.tokens.now at result }
{
    let (_, at) = expect(source, at, Kind::Return)?;
    let (value, at) = value_name_at(source, at, nest)?;
    let (body, at) = block_at(source, at, nest)?;
    Ok((ReturnClause { value, body }, at))
}

// What stands in a handler's braces.
#[tactic(auto, unfolding(s_grammar::specs::Reads::clauses, crate::specs::Items::effect_clauses))]
fn clauses_at(
    source: &Source,
    at: usize,
    nest: usize,
) -> Result<((ReturnClause, ListOf<Clause>), usize), Stop>
    requires within { at ≤ length source.now.tokens.now }
    ensures reads { ReadsAt (clauses source.now.bytes.now nest) source.now.tokens.now at result }
{
    let (first, at) = return_clause_at(source, at, nest)?;
    let (others, at) = effect_clauses_at(source, at, nest)?;
    Ok(((first, others), at))
}

/// The clauses of a handler, in their braces.
pub(crate) fn braced_clauses_at(
    source: &Source,
    at: usize,
    nest: usize,
) -> Result<((ReturnClause, ListOf<Clause>), usize), Stop>
    requires within { at ≤ length source.now.tokens.now }
    ensures reads { ReadsAt (braced_clauses source.now.bytes.now nest) source.now.tokens.now at result }
{
    let (_, inside) = expect(source, at, Kind::OpenBrace)?;
    if nest == 0 {
        return Err(Stop::TooDeep(at));
    }
    let (value, end) = clauses_at(source, inside, nest - 1)?;
    let (_, end) = expect(source, end, Kind::CloseBrace)?;
    Ok((value, end))
}
