//! Declarations.
ghost use Rattle.std.specs.Prelude.{◌≡◌, ◌++◌, List, [], map, OnOk, IfOk};
ghost use Rattle.s_syntax.specs.declared.name.Name.{Name as TheName};
ghost use Rattle.s_syntax.specs.declared.script.Definition.TheVariants.{Function as AFunction, Handler as AHandler, Slots as ASlots};
ghost use Rattle.s_check.specs.Least.{least_of};
ghost use Rattle.s_check.specs.Rules.{in_type, in_parameters, in_head, in_body, in_clauses, in_header, in_definition};
ghost use Rattle.s_check.specs.Scopes.{parameter, number, of_clause, of_return, is_among};
ghost use Rattle.s_check.specs.Views.{type_of, scope_of, HasNames};

use crate::body::in_body;
use crate::bound::{Binding, ValueType};
use crate::declarations::Declarations;
use crate::noted::noted_before;
use crate::rule::{Rule, broken, broken_where};
use s_syntax::{Clause, Definition, Function, Handler, Name, Parameter, Slots, VariableType};
use std::alloc::{AllocError, Global};
use std::collections::BTreeSet;

// The least rule, with those that the type of a parameter breaks.
fn in_type<'a>(
    declarations: &Declarations<'a>,
    ty: &'a VariableType,
    least: Option<Rule>,
) -> Option<Rule>
    ensures value { result ≡ least_of least (in_type declarations.now ty.now) }
{
    match ty {
        VariableType::Int => least,
        VariableType::Resumption(handler) => {
            let is_missing = declarations.handler(handler).is_none();
            broken_where(is_missing, Rule::NoHandlerOfType, least)
        }
        VariableType::Coroutine => least,
    }
}

// The least rule, with those that parameters break.
#[tactic(auto, using(crate::proofs::Least::least_append))]
fn in_parameters<'a>(
    declarations: &Declarations<'a>,
    parameters: &'a [Parameter],
    least: Option<Rule>,
) -> Option<Rule>
    ensures value { result ≡ least_of least (in_parameters declarations.now parameters.now) }
{
    let mut least = broken_where(parameters.len() > 8, Rule::TooManyParameters, least);
    for parameter in parameters {
        least = in_type(declarations, &parameter.ty, least);
    }
    least
}

// The type of a parameter.
fn type_of(ty: &VariableType) -> ValueType<'_>
    ensures value { type_of result ≡ ty.now }
{
    match ty {
        VariableType::Int => ValueType::Int,
        VariableType::Resumption(handler) => ValueType::Resumption(handler),
        VariableType::Coroutine => ValueType::Coroutine,
    }
}

// Puts parameters behind the names that are bound.
fn push_parameters<'a>(
    bound: &mut Vec<Binding<'a>>,
    parameters: &'a [Parameter],
) -> Result<(), AllocError>
    ensures value { OnOk result (scope_of bound.new.items ≡ scope_of bound.old.items ++ map parameter parameters.now) }
{
    for parameter in parameters {
        bound.push(Binding {
            name: &parameter.name,
            ty: type_of(&parameter.ty),
        })?;
    }
    Ok(())
}

// Puts names of numbers behind the names that are bound.
fn push_numbers<'a>(bound: &mut Vec<Binding<'a>>, names: &'a [Name]) -> Result<(), AllocError>
    ensures value { OnOk result (scope_of bound.new.items ≡ scope_of bound.old.items ++ map number names.now) }
{
    for name in names {
        bound.push(Binding {
            name,
            ty: ValueType::Int,
        })?;
    }
    Ok(())
}

// The least rule, with those that a function breaks.
#[tactic(auto, using(crate::proofs::Least::least_append))]
fn in_function<'a>(
    alloc: Global,
    declarations: &Declarations<'a>,
    function: &'a Function,
    least: Option<Rule>,
) -> Result<Option<Rule>, AllocError>
    ensures value { IfOk result (λ now. now ≡ least_of least (in_definition declarations.now [] (AFunction function.now))) }
{
    let parameters = function.parameters.as_slice();
    let least = in_parameters(declarations, parameters, least);
    let mut bound = Vec::new(alloc);
    push_parameters(&mut bound, parameters)?;
    in_body(alloc, declarations, bound.as_slice(), &function.body, least)
}

// The least rule, with those that the clause of a handler for return breaks.
fn in_return<'a>(
    alloc: Global,
    declarations: &Declarations<'a>,
    handler: &'a Handler,
    least: Option<Rule>,
) -> Result<Option<Rule>, AllocError>
    ensures value { IfOk result (λ now. now ≡ least_of least (in_body declarations.now (of_return handler.now) handler.now.return_clause.body)) }
{
    let mut bound = Vec::new(alloc);
    push_parameters(&mut bound, handler.parameters.as_slice())?;
    bound.push(Binding {
        name: &handler.return_clause.value,
        ty: ValueType::Int,
    })?;
    in_body(
        alloc,
        declarations,
        bound.as_slice(),
        &handler.return_clause.body,
        least,
    )
}

// The least rule, with those that the body of a clause for an effect breaks.
fn in_clause<'a>(
    alloc: Global,
    declarations: &Declarations<'a>,
    name: &'a Name,
    handler: &'a Handler,
    clause: &'a Clause,
    least: Option<Rule>,
) -> Result<Option<Rule>, AllocError>
    ensures value { IfOk result (λ now. now ≡ least_of least (in_body declarations.now (of_clause name.now handler.now clause.now) clause.now.body)) }
{
    let mut bound = Vec::new(alloc);
    push_parameters(&mut bound, handler.parameters.as_slice())?;
    push_numbers(&mut bound, clause.arguments.as_slice())?;
    bound.push(Binding {
        name: &clause.resumption,
        ty: ValueType::Resumption(name),
    })?;
    in_body(alloc, declarations, bound.as_slice(), &clause.body, least)
}

// The least rule, with those that a clause breaks by the effect that it names, which one before it names or doesn't.
#[tactic(auto, using(crate::proofs::Least::least_append))]
fn in_head(
    effect: Option<u64>,
    is_again: bool,
    clause: &Clause,
    least: Option<Rule>,
) -> Option<Rule>
    ensures value { (before : List TheName) → is_again ≡ is_among before clause.now.effect → result ≡ least_of least (in_head effect before clause.now) }
{
    match effect {
        Some(number) => {
            let least = broken_where(is_again, Rule::ClauseForEffectTwice, least);
            let count = clause.arguments.len() as u64;
            broken_where(count != number, Rule::OtherNumberInClause, least)
        }
        None => broken(Rule::ClauseForNoEffect, least),
    }
}

// The least rule, with those that the clauses of a handler for effects break, where the set has no name yet.
fn in_each_clause<'a>(
    alloc: Global,
    declarations: &Declarations<'a>,
    name: &'a Name,
    handler: &'a Handler,
    before: &mut BTreeSet<&'a [u8]>,
    least: Option<Rule>,
) -> Result<Option<Rule>, AllocError>
    requires none { HasNames before.old [] }
    ensures value { IfOk result (λ now. now ≡ least_of least (in_clauses declarations.now name.now handler.now [] handler.now.clauses)) }
{
    let mut least = least;
    for clause in handler.clauses.as_slice() {
        let is_again = noted_before(before, &clause.effect)?;
        least = in_head(declarations.effect(&clause.effect), is_again, clause, least);
        least = in_clause(alloc, declarations, name, handler, clause, least)?;
    }
    Ok(least)
}

// The least rule, with those that the clauses of a handler for effects break.
fn in_clauses<'a>(
    alloc: Global,
    declarations: &Declarations<'a>,
    name: &'a Name,
    handler: &'a Handler,
    least: Option<Rule>,
) -> Result<Option<Rule>, AllocError>
    ensures value { IfOk result (λ now. now ≡ least_of least (in_clauses declarations.now name.now handler.now [] handler.now.clauses)) }
{
    let mut before = BTreeSet::new(alloc);
    in_each_clause(alloc, declarations, name, handler, &mut before, least)
}

// The least rule, with those that a handler breaks by its parameters and by how many clauses it has.
#[tactic(auto, using(crate::proofs::Least::least_append))]
fn in_header<'a>(
    declarations: &Declarations<'a>,
    handler: &'a Handler,
    least: Option<Rule>,
) -> Option<Rule>
    ensures value { result ≡ least_of least (in_header declarations.now handler.now) }
{
    let least = in_parameters(declarations, handler.parameters.as_slice(), least);
    broken_where(handler.clauses.len() > 16, Rule::TooManyClauses, least)
}

// The least rule, with those that a handler breaks. Where it has too many parameters or clauses no other rule is less, and its parameters
// aren't gone through again for each clause.
#[tactic(auto, using(crate::proofs::Least::least_append))]
fn in_handler<'a>(
    alloc: Global,
    declarations: &Declarations<'a>,
    name: &'a Name,
    handler: &'a Handler,
    least: Option<Rule>,
) -> Result<Option<Rule>, AllocError>
    ensures value { IfOk result (λ now. now ≡ least_of least (in_definition declarations.now name.now (AHandler handler.now))) }
{
    let least = in_header(declarations, handler, least);
    if handler.parameters.len() > 8 {
        return Ok(least);
    }
    if handler.clauses.len() > 16 {
        return Ok(least);
    }
    let least = in_return(alloc, declarations, handler, least)?;
    in_clauses(alloc, declarations, name, handler, least)
}

// The least rule, with those that slots break.
#[tactic(auto, using(crate::proofs::Least::least_append))]
fn in_slots<'a>(
    declarations: &Declarations<'a>,
    slots: &'a Slots,
    least: Option<Rule>,
) -> Option<Rule>
    ensures value { result ≡ least_of least (in_definition declarations.now [] (ASlots slots.now)) }
{
    let is_missing = declarations.handler(&slots.handler).is_none();
    let least = broken_where(is_missing, Rule::NoHandlerOfType, least);
    let places = slots.places.value;
    broken_where(
        !(0 < places && places < 65537),
        Rule::SlotsOfOtherNumber,
        least,
    )
}

/// The least rule, with those that the definition of this name breaks.
pub(crate) fn in_definition<'a>(
    alloc: Global,
    declarations: &Declarations<'a>,
    name: &'a Name,
    definition: &'a Definition,
    least: Option<Rule>,
) -> Result<Option<Rule>, AllocError>
    ensures value { IfOk result (λ now. now ≡ least_of least (in_definition declarations.now name.now definition.now)) }
{
    match definition {
        Definition::Effect(number) => Ok(broken_where(
            number.value > 8,
            Rule::EffectOfTooMany,
            least,
        )),
        Definition::Function(function) => in_function(alloc, declarations, function, least),
        Definition::Handler(handler) => in_handler(alloc, declarations, name, handler, least),
        Definition::Slots(slots) => Ok(in_slots(declarations, slots, least)),
    }
}
