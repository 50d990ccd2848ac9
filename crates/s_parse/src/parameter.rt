//! Parameters and names in parentheses.
ghost use Rattle.std.specs.Prelude.{◌≡◌, ◌≤◌, length, drop};
ghost use Rattle.s_grammar.specs.Reads.{type_by, parameter, parameters, names, value_name};
ghost use Rattle.s_grammar.specs.Reading.{choice};
ghost use Rattle.s_expr.specs.Places.{ReadsAt};

use crate::listed::{Item, list_at};
use lists::ListOf;
use s_expr::{Source, Stop, expect, is_kind, kind_at, name_at};
use s_syntax::{Kind, Name, Parameter, VariableType};

// A type, which stands behind a colon.
#[tactic(auto, unfolding(s_grammar::specs::Reads::type_by, s_grammar::specs::Reads::led))]
fn type_at(source: &Source, at: usize) -> Result<(VariableType, usize), Stop>
    requires within { at ≤ length source.now.tokens.now }
    ensures reads { ReadsAt (choice (type_by source.now.bytes.now)) source.now.tokens.now at result }
{
    match kind_at(source, at) {
        Kind::Coro => {
            let (_, at) = expect(source, at, Kind::Coro)?;
            Ok((VariableType::Coroutine, at))
        }
        _ => {
            let (_, at) = expect(source, at, Kind::Res)?;
            let (handler, at) = name_at(source, at)?;
            Ok((VariableType::Resumption(handler), at))
        }
    }
}

// A parameter, which is a number where no type stands behind it.
#[tactic(auto, unfolding(s_grammar::specs::Reads::parameter, s_grammar::specs::Reads::led))]
fn parameter_at(source: &Source, at: usize) -> Result<(Parameter, usize), Stop>
    requires within { at ≤ length source.now.tokens.now }
    ensures reads { ReadsAt (parameter source.now.bytes.now) source.now.tokens.now at result }
{
    let (name, at) = name_at(source, at)?;
    if !is_kind(Kind::Colon, kind_at(source, at)) {
        let ty = VariableType::Int;
        return Ok((Parameter { name, ty }, at));
    }
    let (_, at) = expect(source, at, Kind::Colon)?;
    let (ty, at) = type_at(source, at)?;
    Ok((Parameter { name, ty }, at))
}

impl Item for Parameter {
    ghost use Rattle.s_grammar.specs.Reads.{parameter};
    ghost use Rattle.s_parse.specs.BehindCommas.{parameter_takes};

    ghost reading = { parameter };

    ghost takes = { parameter_takes };

    fn read(source: &Source, at: usize) -> Result<(Parameter, usize), Stop> {
        parameter_at(source, at)
    }
}

impl Item for Name {
    ghost use Rattle.s_grammar.specs.Reads.{name};
    ghost use Rattle.s_parse.specs.BehindCommas.{name_takes};

    ghost reading = { name };

    ghost takes = { name_takes };

    fn read(source: &Source, at: usize) -> Result<(Name, usize), Stop> {
        name_at(source, at)
    }
}

/// Parameters in parentheses.
#[tactic(auto, unfolding(s_grammar::specs::Reads::parameters))]
pub(crate) fn parameters_at(
    source: &Source,
    at: usize,
    nest: usize,
) -> Result<(ListOf<Parameter>, usize), Stop>
    requires within { at ≤ length source.now.tokens.now }
    ensures reads { ReadsAt (parameters source.now.bytes.now nest) source.now.tokens.now at result }
{
    list_at::<Parameter>(source, at, nest)
}

/// Names in parentheses.
#[tactic(auto, unfolding(s_grammar::specs::Reads::names))]
pub(crate) fn names_at(
    source: &Source,
    at: usize,
    nest: usize,
) -> Result<(ListOf<Name>, usize), Stop>
    requires within { at ≤ length source.now.tokens.now }
    ensures reads { ReadsAt (names source.now.bytes.now nest) source.now.tokens.now at result }
{
    list_at::<Name>(source, at, nest)
}

/// A name in parentheses.
pub(crate) fn value_name_at(source: &Source, at: usize, nest: usize) -> Result<(Name, usize), Stop>
    requires within { at ≤ length source.now.tokens.now }
    ensures reads { ReadsAt (value_name source.now.bytes.now nest) source.now.tokens.now at result }
{
    let (_, inside) = expect(source, at, Kind::OpenParenthesis)?;
    if nest == 0 {
        return Err(Stop::TooDeep(at));
    }
    let (value, end) = name_at(source, inside)?;
    let (_, end) = expect(source, end, Kind::CloseParenthesis)?;
    Ok((value, end))
}
