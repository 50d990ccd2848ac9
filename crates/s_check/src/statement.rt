//! Statements and blocks.
ghost use Rattle.std.specs.Prelude.{◌≡◌, false, length, take, OnOk, IfOk};
ghost use Rattle.s_syntax.specs.BlockOf.{statement_of, block_of};
ghost use Rattle.s_check.specs.Least.{least_of};
ghost use Rattle.std.specs.Option.{option_copied};
ghost use Rattle.s_check.specs.Definitions.{slots_of};
ghost use Rattle.s_check.specs.Rules.{in_target, in_use, for_slots, in_stored, handler_of_slots, bound_by, bound_after, in_block};
ghost use Rattle.s_check.specs.Parts.{in_front, in_blocks};
ghost use Rattle.s_check.specs.Scopes.{type_in};
ghost use Rattle.s_syntax.specs.declared.script.VariableType.TheVariants.{Resumption as OfHandler};
ghost use Rattle.s_check.specs.Views.{type_of};

use crate::arguments::{is_coroutine, is_resumption_of};
use crate::bound::{Binding, ValueType};
use crate::coroutines::{for_spawned, for_switched};
use crate::declarations::Declarations;
use crate::expression::in_expr;
use crate::rule::{Rule, broken, broken_where};
use crate::scope::Scope;
use s_syntax::{Block, Name, Slots, Statement, Use};
use std::alloc::AllocError;

// The least rule, with those that the assignment of a name breaks.
fn in_target<'a>(scope: &Scope<'a>, name: &'a Name, least: Option<Rule>) -> Option<Rule>
    ensures value { result ≡ least_of least (in_target (type_in scope.now name.now)) }
{
    match scope.find(name) {
        Some(ValueType::Int) => least,
        Some(ValueType::Resumption(_)) => broken(Rule::ResumptionElsewhere, least),
        Some(ValueType::Coroutine) => broken(Rule::ResumptionElsewhere, least),
        None => broken(Rule::NameNotBound, least),
    }
}

// The least rule, with that which is broken where slots are missing.
fn for_slots(slots: Option<&Slots>, least: Option<Rule>) -> Option<Rule>
    ensures value { result ≡ least_of least (for_slots (option_copied slots.entry)) }
{
    broken_where(slots.is_none(), Rule::NoSlots, least)
}

// The least rule, with those that a name breaks which is stored into slots.
#[tactic(auto, using(crate::proofs::Least::least_append))]
fn in_stored<'a>(
    declarations: &Declarations<'a>,
    scope: &Scope<'a>,
    slots: Option<&Slots>,
    name: &'a Name,
    least: Option<Rule>,
) -> Option<Rule>
    ensures value { result ≡ least_of least (in_stored declarations.now (option_copied slots.entry) (type_in scope.now name.now)) }
{
    match (scope.find(name), slots) {
        (None, _) => broken(Rule::NameNotBound, least),
        (Some(ty), None) => broken_where(is_coroutine(Some(ty)), Rule::ResumptionElsewhere, least),
        (Some(ty), Some(slots)) => {
            let least = broken_where(is_coroutine(Some(ty)), Rule::ResumptionElsewhere, least);
            broken_where(
                !is_resumption_of(declarations, &slots.handler, Some(ty)),
                Rule::StoredOfOtherType,
                least,
            )
        }
    }
}

// The type of what is taken from the slots of this name.
fn taken_type<'a>(name: &'a Name, slots: Option<&'a Slots>) -> ValueType<'a>
    ensures value { type_of result ≡ OfHandler (handler_of_slots name.now (option_copied slots.entry)) }
{
    match slots {
        Some(slots) => ValueType::Resumption(&slots.handler),
        None => ValueType::Resumption(name),
    }
}

// The least rule, with those that the use of a value breaks.
#[tactic(auto, using(crate::proofs::Least::least_append))]
fn in_use<'a>(
    declarations: &Declarations<'a>,
    scope: &Scope<'a>,
    what: &'a Use,
    least: Option<Rule>,
) -> Option<Rule>
    ensures value { result ≡ least_of least (in_use declarations.now scope.now what.now) }
{
    match what {
        Use::Assign(name) => in_target(scope, name, least),
        Use::Store { slots, name } => {
            let slots = declarations.slots(slots);
            let least = for_slots(slots, least);
            in_stored(declarations, scope, slots, name, least)
        }
        Use::Take { name: _, slots } => for_slots(declarations.slots(slots), least),
        Use::Switch {
            number: _,
            coroutine: _,
            target,
        } => for_switched(scope, target, least),
        Use::Let(_) | Use::Print | Use::Return | Use::Drop => least,
    }
}

// Binds the names of a let, of a take or of a switch.
fn bind_by<'a>(
    declarations: &Declarations<'a>,
    scope: &mut Scope<'a>,
    what: &'a Use,
) -> Result<(), AllocError>
    ensures value { OnOk result (scope.new ≡ bound_by declarations.now what.now scope.old) }
{
    match what {
        Use::Let(name) => scope.bind(Binding {
            name,
            ty: ValueType::Int,
        }),
        Use::Take { name, slots } => scope.bind(Binding {
            name,
            ty: taken_type(slots, declarations.slots(slots)),
        }),
        Use::Switch {
            number,
            coroutine,
            target: _,
        } => {
            scope.bind(Binding {
                name: number,
                ty: ValueType::Int,
            })?;
            scope.bind(Binding {
                name: coroutine,
                ty: ValueType::Coroutine,
            })
        }
        _ => Ok(()),
    }
}

// Binds the names that a statement binds.
fn bind_name<'a>(
    declarations: &Declarations<'a>,
    scope: &mut Scope<'a>,
    statement: &'a Statement,
) -> Result<(), AllocError>
    ensures value { OnOk result (scope.new ≡ bound_after declarations.now (statement_of statement.now) scope.old) }
{
    match statement {
        Statement::Evaluate { what, value: _ } => bind_by(declarations, scope, what),
        Statement::Spawn { name, function: _ } => scope.bind(Binding {
            name,
            ty: ValueType::Coroutine,
        }),
        _ => Ok(()),
    }
}

// The least rule, with those that a statement breaks outside its blocks.
#[tactic(auto, using(crate::proofs::Least::least_append))]
fn in_front<'a>(
    declarations: &Declarations<'a>,
    scope: &Scope<'a>,
    statement: &'a Statement,
    least: Option<Rule>,
) -> Option<Rule>
    ensures value { result ≡ least_of least (in_front declarations.now scope.now (statement_of statement.now)) }
{
    match statement {
        Statement::Evaluate { what, value } => {
            let least = in_use(declarations, scope, what, least);
            in_expr(declarations, scope, false, value, least)
        }
        Statement::If {
            condition: value,
            then_block: _,
            else_block: _,
        }
        | Statement::While {
            condition: value,
            body: _,
        } => in_expr(declarations, scope, false, value, least),
        Statement::Fail => least,
        Statement::Spawn { name: _, function } => {
            for_spawned(declarations.function(function), least)
        }
    }
}

// The least rule, with those that the blocks of a statement break.
#[cycle(statements)]
#[tactic(auto, using(crate::proofs::Least::least_append))]
fn in_blocks<'a>(
    declarations: &Declarations<'a>,
    scope: &mut Scope<'a>,
    statement: &'a Statement,
    least: Option<Rule>,
) -> Result<Option<Rule>, AllocError>
    ensures value { IfOk result (λ now. now ≡ least_of least (in_blocks declarations.now scope.old (statement_of statement.now))) }
    ensures restored { OnOk result (scope.new ≡ scope.old) }
{
    match statement {
        Statement::If {
            condition: _,
            then_block,
            else_block,
        } => {
            let least = in_block(declarations, scope, then_block, least)?;
            in_block(declarations, scope, else_block, least)
        }
        Statement::While { condition: _, body } => in_block(declarations, scope, body, least),
        Statement::Evaluate { what: _, value: _ }
        | Statement::Fail
        | Statement::Spawn {
            name: _,
            function: _,
        } => Ok(least),
    }
}

// The least rule, with those that statements break, each behind those before it. What they bind stays behind the names.
#[cycle(statements)]
fn in_statements<'a>(
    declarations: &Declarations<'a>,
    scope: &mut Scope<'a>,
    statements: &'a [Statement],
    least: Option<Rule>,
) -> Result<Option<Rule>, AllocError>
    ensures value { IfOk result (λ now. now ≡ least_of least (in_block declarations.now scope.old (block_of statements.now))) }
    ensures kept { OnOk result (take (length scope.old) scope.new ≡ scope.old) }
{
    let mut least = least;
    for statement in statements {
        least = in_front(declarations, scope, statement, least);
        least = in_blocks(declarations, scope, statement, least)?;
        bind_name(declarations, scope, statement)?;
    }
    Ok(least)
}

/// The least rule, with those that a block breaks.
#[cycle(statements)]
pub(crate) fn in_block<'a>(
    declarations: &Declarations<'a>,
    scope: &mut Scope<'a>,
    block: &'a Block,
    least: Option<Rule>,
) -> Result<Option<Rule>, AllocError>
    ensures value { IfOk result (λ now. now ≡ least_of least (in_block declarations.now scope.old block.now)) }
    ensures restored { OnOk result (scope.new ≡ scope.old) }
{
    let count = scope.len();
    let least = in_statements(declarations, scope, block.statements(), least)?;
    scope.leave(count);
    Ok(least)
}
