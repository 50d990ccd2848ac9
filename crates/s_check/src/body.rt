//! Bodies.
ghost use Rattle.std.specs.Prelude.{◌≡◌, ◌++◌, [], map, OnOk, IfOk};
ghost use Rattle.s_syntax.specs.BlockOf.{statement_of};
ghost use Rattle.s_check.specs.Least.{least_of};
ghost use Rattle.s_check.specs.Rules.{in_body};
ghost use Rattle.s_check.specs.Scopes.{Bound, lets_by, lets_of, lets_in, some_twice, bind_all};
ghost use Rattle.s_check.specs.Views.{names_of, scope_of, HasNames};

use crate::bound::Binding;
use crate::declarations::Declarations;
use crate::noted::noted_before;
use crate::rule::{Rule, broken_where};
use crate::scope::Scope;
use crate::statement::in_block;
use s_syntax::{Block, Name, Statement, Use};
use std::alloc::{AllocError, Global};
use std::collections::BTreeSet;

// Puts the names that a use binds behind those that are there.
fn push_lets_by<'a>(what: &'a Use, names: &mut Vec<&'a Name>) -> Result<(), AllocError>
    ensures value { OnOk result (names_of names.new.items ≡ names_of names.old.items ++ lets_by what.now) }
{
    match what {
        Use::Let(name) | Use::Take { name, slots: _ } => {
            names.push(name)?;
            Ok(())
        }
        Use::Switch {
            number,
            coroutine,
            target: _,
        } => {
            names.push(number)?;
            names.push(coroutine)?;
            Ok(())
        }
        Use::Assign(_) | Use::Print | Use::Return | Use::Drop | Use::Store { slots: _, name: _ } =>
            { Ok(()) }
    }
}

// Puts the names that a statement binds behind those that are there.
#[cycle(lets)]
fn push_lets_of<'a>(statement: &'a Statement, names: &mut Vec<&'a Name>) -> Result<(), AllocError>
    ensures value { OnOk result (names_of names.new.items ≡ names_of names.old.items ++ lets_of (statement_of statement.now)) }
{
    match statement {
        Statement::Evaluate { what, value: _ } => push_lets_by(what, names),
        Statement::If {
            condition: _,
            then_block,
            else_block,
        } => {
            push_lets(then_block, names)?;
            push_lets(else_block, names)
        }
        Statement::While { condition: _, body } => push_lets(body, names),
        Statement::Fail => Ok(()),
        Statement::Spawn { name, function: _ } => {
            names.push(name)?;
            Ok(())
        }
    }
}

// Puts the names that a block binds behind those that are there.
#[cycle(lets)]
fn push_lets<'a>(block: &'a Block, names: &mut Vec<&'a Name>) -> Result<(), AllocError>
    ensures value { OnOk result (names_of names.new.items ≡ names_of names.old.items ++ lets_in block.now) }
{
    for statement in block.statements() {
        push_lets_of(statement, names)?;
    }
    Ok(())
}

// Whether a name stands twice, where the set has none yet.
fn some_noted<'a>(before: &mut BTreeSet<&'a [u8]>, names: &[&'a Name]) -> Result<bool, AllocError>
    requires none { HasNames before.old [] }
    ensures value { IfOk result (λ twice. twice ≡ some_twice [] (names_of names.now)) }
{
    for name in names {
        if noted_before(before, name)? {
            return Ok(true);
        }
    }
    Ok(false)
}

// Whether a name stands twice.
fn some_twice(alloc: Global, names: &[&Name]) -> Result<bool, AllocError>
    ensures value { IfOk result (λ twice. twice ≡ some_twice [] (names_of names.now)) }
{
    let mut before = BTreeSet::new(alloc);
    some_noted(&mut before, names)
}

// Whether a body binds a name twice, at whose start these are bound.
fn binds_twice(alloc: Global, bound: &[Binding], body: &Block) -> Result<bool, AllocError>
    ensures value { IfOk result (λ twice. twice ≡ some_twice [] (map (λ (b : Bound). b.name) (scope_of bound.now) ++ lets_in body.now)) }
{
    let mut names = Vec::new(alloc);
    for binding in bound {
        names.push(binding.name)?;
    }
    push_lets(body, &mut names)?;
    some_twice(alloc, names.as_slice())
}

// Names bound in order.
fn bind_all<'a>(alloc: Global, bound: &[Binding<'a>]) -> Result<Scope<'a>, AllocError>
    ensures value { IfOk result (λ scope. scope ≡ bind_all (scope_of bound.now) []) }
{
    let mut scope = Scope::new(alloc);
    for binding in bound {
        scope.bind(*binding)?;
    }
    Ok(scope)
}

/// The least rule, with those that a body breaks at whose start these names are bound.
#[tactic(auto, using(crate::proofs::Least::least_append))]
pub(crate) fn in_body<'a>(
    alloc: Global,
    declarations: &Declarations<'a>,
    bound: &[Binding<'a>],
    body: &'a Block,
    least: Option<Rule>,
) -> Result<Option<Rule>, AllocError>
    ensures value { IfOk result (λ now. now ≡ least_of least (in_body declarations.now (scope_of bound.now) body.now)) }
{
    let twice = binds_twice(alloc, bound, body)?;
    let least = broken_where(twice, Rule::NameBoundTwice, least);
    let mut scope = bind_all(alloc, bound)?;
    in_block(declarations, &mut scope, body, least)
}
