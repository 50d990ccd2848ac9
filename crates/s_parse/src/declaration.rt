//! Declarations and scripts.
ghost use Rattle.std.specs.Prelude.{◌≡◌, ◌≤◌, length, drop};
ghost use Rattle.s_syntax.specs.declared.token.Kind.TheVariants as kind;
ghost use Rattle.s_grammar.specs.Reads.{declaration_by, declarations, script};
ghost use Rattle.s_expr.specs.Places.{ReadsAt};
ghost use Rattle.s_parse.specs.Items.{declaration};

use crate::handler::braced_clauses_at;
use crate::parameter::parameters_at;
use crate::statement::block_at;
use lists::ListOf;
use s_expr::{Source, Stop, expect, int_at, is_kind, kind_at, name_at};
use s_syntax::{Declaration, Definition, Function, Handler, Kind, Script, Slots};

// An effect.
#[tactic(auto, unfolding(s_grammar::specs::Reads::declaration_by, s_grammar::specs::Reads::led, s_grammar::specs::Reads::ended))]
fn effect_at(source: &Source, at: usize, nest: usize) -> Result<(Declaration, usize), Stop>
    requires within { at ≤ length source.now.tokens.now }
    ensures reads { ReadsAt (declaration_by source.now.bytes.now nest kind.Effect) source.now.tokens.now at result }
{
    let (_, at) = expect(source, at, Kind::Effect)?;
    let (name, at) = name_at(source, at)?;
    let (_, at) = expect(source, at, Kind::Slash)?;
    let (number, at) = int_at(source, at)?;
    let (_, at) = expect(source, at, Kind::Semicolon)?;
    let definition = Definition::Effect(number);
    Ok((Declaration { name, definition }, at))
}

// A function.
#[tactic(auto, unfolding(s_grammar::specs::Reads::declaration_by, s_grammar::specs::Reads::led))]
fn function_at(source: &Source, at: usize, nest: usize) -> Result<(Declaration, usize), Stop>
    requires within { at ≤ length source.now.tokens.now }
    ensures reads { ReadsAt (declaration_by source.now.bytes.now nest kind.Fn) source.now.tokens.now at result }
{
    let (_, at) = expect(source, at, Kind::Fn)?;
    let (name, at) = name_at(source, at)?;
    let (parameters, at) = parameters_at(source, at, nest)?;
    let (body, at) = block_at(source, at, nest)?;
    let definition = Definition::Function(Function { parameters, body });
    Ok((Declaration { name, definition }, at))
}

// A handler.
#[tactic(auto, unfolding(s_grammar::specs::Reads::declaration_by, s_grammar::specs::Reads::led, crate::specs::Items::braced_clauses))]
fn handler_at(source: &Source, at: usize, nest: usize) -> Result<(Declaration, usize), Stop>
    requires within { at ≤ length source.now.tokens.now }
    ensures reads { ReadsAt (declaration_by source.now.bytes.now nest kind.Handler) source.now.tokens.now at result }
{
    let (_, at) = expect(source, at, Kind::Handler)?;
    let (name, at) = name_at(source, at)?;
    let (parameters, at) = parameters_at(source, at, nest)?;
    let ((return_clause, clauses), at) = braced_clauses_at(source, at, nest)?;
    let definition = Definition::Handler(Handler {
        parameters,
        return_clause,
        clauses,
    });
    Ok((Declaration { name, definition }, at))
}

// Slots.
#[tactic(auto, unfolding(s_grammar::specs::Reads::declaration_by, s_grammar::specs::Reads::led, s_grammar::specs::Reads::ended))]
fn slots_at(source: &Source, at: usize, nest: usize) -> Result<(Declaration, usize), Stop>
    requires within { at ≤ length source.now.tokens.now }
    ensures reads { ReadsAt (declaration_by source.now.bytes.now nest kind.Slots) source.now.tokens.now at result }
{
    let (_, at) = expect(source, at, Kind::Slots)?;
    let (name, at) = name_at(source, at)?;
    let (_, at) = expect(source, at, Kind::Colon)?;
    let (_, at) = expect(source, at, Kind::Res)?;
    let (handler, at) = name_at(source, at)?;
    let (_, at) = expect(source, at, Kind::OpenBracket)?;
    let (places, at) = int_at(source, at)?;
    let (_, at) = expect(source, at, Kind::CloseBracket)?;
    let (_, at) = expect(source, at, Kind::Semicolon)?;
    let definition = Definition::Slots(Slots { handler, places });
    Ok((Declaration { name, definition }, at))
}

// A declaration.
#[tactic(auto, unfolding(crate::specs::Items::declaration, s_grammar::specs::Reads::declaration_by))]
fn declaration_at(source: &Source, at: usize, nest: usize) -> Result<(Declaration, usize), Stop>
    requires within { at ≤ length source.now.tokens.now }
    ensures reads { ReadsAt (declaration source.now.bytes.now nest) source.now.tokens.now at result }
{
    match kind_at(source, at) {
        Kind::Fn => function_at(source, at, nest),
        Kind::Handler => handler_at(source, at, nest),
        Kind::Slots => slots_at(source, at, nest),
        _ => effect_at(source, at, nest),
    }
}

// Declarations, up to the end.
fn declarations_at(
    source: &Source,
    start: usize,
    nest: usize,
) -> Result<(ListOf<Declaration>, usize), Stop>
    requires within { start ≤ length source.now.tokens.now }
    ensures reads { ReadsAt (declarations source.now.bytes.now nest) source.now.tokens.now start result }
{
    let mut items = ListOf::new(source.alloc);
    let mut at = start;
    'items: while !is_kind(Kind::End, kind_at(source, at)) {
        let (item, next) = declaration_at(source, at, nest)?;
        items.push(item)?;
        at = next;
    }
    Ok((items, at))
}

/// A script, where so many brackets may be opened.
#[tactic(auto, unfolding(s_grammar::specs::Reads::script))]
pub(crate) fn script_at(source: &Source, at: usize, nest: usize) -> Result<(Script, usize), Stop>
    requires within { at ≤ length source.now.tokens.now }
    ensures reads { ReadsAt (script source.now.bytes.now nest) source.now.tokens.now at result }
{
    let (declarations, at) = declarations_at(source, at, nest)?;
    Ok((Script { declarations }, at))
}
