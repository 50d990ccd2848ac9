//! The names of bodies, and their locals.
ghost use Rattle.std.specs.Prelude.{◌≡◌, ◌≤◌, ◌+◌, ◌++◌, ◌∷◌, [], map, length, sum_by, OnOk, IfOk};
ghost use Rattle.s_syntax.specs.BlockOf.{statement_of};
ghost use Rattle.s_check.specs.Definitions.{slots_of};
ghost use Rattle.s_check.specs.Rules.{handler_of_slots};
ghost use Rattle.s_check.specs.Scopes.{number, parameter, resumption, coroutine};
ghost use Rattle.s_check.specs.Size.{block_size, clause_size};
ghost use Rattle.s_code.specs.Layouts.{numbered};
ghost use Rattle.s_code.specs.Places.{binds_by, binds_of, binds_in, name_runs, locals_for, clause_names, clauses_names, return_names};
ghost use Rattle.s_code.specs.Views.{locals_in, type_of};
ghost use Rattle.s_index.specs.Types.{val_type};
ghost use Rattle.s_index.specs.Limits.{number_limit};
ghost use Rattle.s_lower.specs.Views.{bound_of, bounds_of};

use s_code::{LocalName, LocalType};
use s_index::{Program, coroutine_local, resumption_local};
use s_syntax::{Block, Clause, Handler, Name, Parameter, Statement, Use, VariableType};
use std::alloc::{AllocError, Global};
use w_syntax::{LocalRun, Locals};
use w_types::PackedType;

/// A value name and its type.
#[derive(Clone, Copy)]
pub(crate) struct TypedName<'a> {
    pub name: &'a Name,
    pub ty: LocalType<'a>,
}

// A name of a number.
fn number<'a>(name: &'a Name) -> TypedName<'a>
    ensures value { bound_of result ≡ number name.now }
{
    TypedName {
        name,
        ty: LocalType::Int,
    }
}

// A name of a coroutine.
fn coroutine<'a>(name: &'a Name) -> TypedName<'a>
    ensures value { bound_of result ≡ coroutine name.now }
{
    TypedName {
        name,
        ty: LocalType::Coroutine,
    }
}

// The type of a parameter.
fn type_of(ty: &VariableType) -> LocalType<'_>
    ensures value { type_of result ≡ ty.now }
{
    match ty {
        VariableType::Int => LocalType::Int,
        VariableType::Resumption(handler) => LocalType::Resumption(handler),
        VariableType::Coroutine => LocalType::Coroutine,
    }
}

/// The names of parameters. It fails only for want of memory.
pub(crate) fn parameters<'a>(
    alloc: Global,
    all: &'a [Parameter],
) -> Result<Vec<TypedName<'a>>, AllocError>
    ensures value { IfOk result (λ names. bounds_of names.items ≡ map parameter all.now) }
    ensures many { IfOk result (λ names. length names.items ≡ length all.now) }
{
    let mut names = Vec::new(alloc);
    for parameter in all {
        names.push(TypedName {
            name: &parameter.name,
            ty: type_of(&parameter.ty),
        })?;
    }
    Ok(names)
}

// Puts names of numbers behind the others.
fn push_numbers<'a>(all: &'a [Name], names: &mut Vec<TypedName<'a>>) -> Result<(), AllocError>
    ensures value { OnOk result (bounds_of names.new.items ≡ bounds_of names.old.items ++ map number all.now) }
{
    for name in all {
        names.push(number(name))?;
    }
    Ok(())
}

// The handler of what is taken from the slots of this name.
fn handler_of_slots<'a>(program: &Program<'a>, slots: &'a Name) -> &'a Name
    ensures value { result.now ≡ handler_of_slots slots.now (slots_of program.now slots.now) }
{
    match program.slots(slots) {
        Some(found) => &found.handler,
        None => slots,
    }
}

// A name of what is taken from slots.
fn taken<'a>(program: &Program<'a>, name: &'a Name, slots: &'a Name) -> TypedName<'a>
    ensures value { bound_of result ≡ resumption (handler_of_slots slots.now (slots_of program.now slots.now)) name.now }
{
    TypedName {
        name,
        ty: LocalType::Resumption(handler_of_slots(program, slots)),
    }
}

// Puts the names that a use binds behind the others.
fn push_lets_by<'a>(
    program: &Program<'a>,
    what: &'a Use,
    names: &mut Vec<TypedName<'a>>,
) -> Result<(), AllocError>
    ensures value { OnOk result (bounds_of names.new.items ≡ bounds_of names.old.items ++ binds_by program.now what.now) }
{
    match what {
        Use::Let(name) => {
            names.push(number(name))?;
            Ok(())
        }
        Use::Take { name, slots } => {
            names.push(taken(program, name, slots))?;
            Ok(())
        }
        Use::Switch {
            number: name,
            coroutine: other,
            target: _,
        } => {
            names.push(number(name))?;
            names.push(coroutine(other))?;
            Ok(())
        }
        Use::Assign(_) | Use::Print | Use::Return | Use::Drop | Use::Store { slots: _, name: _ } =>
            Ok(()),
    }
}

// Puts the names that a statement binds behind the others.
#[cycle(lets)]
fn push_lets_of<'a>(
    program: &Program<'a>,
    statement: &'a Statement,
    names: &mut Vec<TypedName<'a>>,
) -> Result<(), AllocError>
    ensures value { OnOk result (bounds_of names.new.items ≡ bounds_of names.old.items ++ binds_of program.now (statement_of statement.now)) }
{
    match statement {
        Statement::Evaluate { what, value: _ } => push_lets_by(program, what, names),
        Statement::If {
            condition: _,
            then_block,
            else_block,
        } => {
            push_lets(program, then_block, names)?;
            push_lets(program, else_block, names)
        }
        Statement::While { condition: _, body } => push_lets(program, body, names),
        Statement::Fail => Ok(()),
        Statement::Spawn { name, function: _ } => {
            names.push(coroutine(name))?;
            Ok(())
        }
    }
}

// Puts the names that a block binds behind the others.
#[cycle(lets)]
fn push_lets<'a>(
    program: &Program<'a>,
    block: &'a Block,
    names: &mut Vec<TypedName<'a>>,
) -> Result<(), AllocError>
    ensures value { OnOk result (bounds_of names.new.items ≡ bounds_of names.old.items ++ binds_in program.now block.now) }
{
    for statement in block.statements() {
        push_lets_of(program, statement, names)?;
    }
    Ok(())
}

/// The names that the body of a function binds. It fails only for want of memory.
pub(crate) fn body_names<'a>(
    alloc: Global,
    program: &Program<'a>,
    body: &'a Block,
) -> Result<Vec<TypedName<'a>>, AllocError>
    ensures value { IfOk result (λ names. bounds_of names.items ≡ binds_in program.now body.now) }
    ensures few { IfOk result (λ names. length names.items ≤ block_size body.now) }
{
    let mut names = Vec::new(alloc);
    push_lets(program, body, &mut names)?;
    Ok(names)
}

// Puts the names of a handler's clause for return behind the others.
fn push_return_names<'a>(
    program: &Program<'a>,
    handler: &'a Handler,
    names: &mut Vec<TypedName<'a>>,
) -> Result<(), AllocError>
    ensures value { OnOk result (bounds_of names.new.items ≡ bounds_of names.old.items ++ return_names program.now handler.now) }
    ensures many { OnOk result (length names.new.items ≡ length names.old.items + length (return_names program.now handler.now)) }
    ensures few { length (return_names program.now handler.now) ≤ 1 + block_size handler.now.return_clause.body }
{
    names.push(number(&handler.return_clause.value))?;
    push_lets(program, &handler.return_clause.body, names)
}

/// Puts the names of a clause of this handler behind the others. It fails only for want of memory.
pub(crate) fn push_clause_names<'a>(
    program: &Program<'a>,
    handler: &'a Name,
    clause: &'a Clause,
    names: &mut Vec<TypedName<'a>>,
) -> Result<(), AllocError>
    ensures value { OnOk result (bounds_of names.new.items ≡ bounds_of names.old.items ++ clause_names program.now handler.now clause.now) }
    ensures many { OnOk result (length names.new.items ≡ length names.old.items + length (clause_names program.now handler.now clause.now)) }
    ensures few { length (clause_names program.now handler.now clause.now) ≤ clause_size clause.now }
{
    push_numbers(clause.arguments.as_slice(), names)?;
    names.push(TypedName {
        name: &clause.resumption,
        ty: LocalType::Resumption(handler),
    })?;
    push_lets(program, &clause.body, names)
}

// Puts the names of clauses of this handler behind the others.
fn push_clauses_names<'a>(
    program: &Program<'a>,
    handler: &'a Name,
    clauses: &'a [Clause],
    names: &mut Vec<TypedName<'a>>,
) -> Result<(), AllocError>
    ensures value { OnOk result (bounds_of names.new.items ≡ bounds_of names.old.items ++ clauses_names program.now handler.now clauses.now) }
    ensures many { OnOk result (length names.new.items ≡ length names.old.items + length (clauses_names program.now handler.now clauses.now)) }
    ensures few { length (clauses_names program.now handler.now clauses.now) ≤ sum_by clause_size clauses.now }
{
    for clause in clauses {
        push_clause_names(program, handler, clause, names)?;
    }
    Ok(())
}

/// The names of a handler's clause for return. It fails only for want of memory.
pub(crate) fn return_names<'a>(
    alloc: Global,
    program: &Program<'a>,
    handler: &'a Handler,
) -> Result<Vec<TypedName<'a>>, AllocError>
    ensures value { IfOk result (λ names. bounds_of names.items ≡ return_names program.now handler.now) }
    ensures many { IfOk result (λ names. length names.items ≡ length (return_names program.now handler.now)) }
    ensures few { length (return_names program.now handler.now) ≤ 1 + block_size handler.now.return_clause.body }
{
    let mut names = Vec::new(alloc);
    push_return_names(program, handler, &mut names)?;
    Ok(names)
}

/// The names of a handler behind its parameters: those of the clause for return, and those of the clauses. It fails only for want of memory.
pub(crate) fn handler_names<'a>(
    alloc: Global,
    program: &Program<'a>,
    name: &'a Name,
    handler: &'a Handler,
) -> Result<Vec<TypedName<'a>>, AllocError>
    ensures value { IfOk result (λ names. bounds_of names.items ≡ return_names program.now handler.now ++ clauses_names program.now name.now handler.now.clauses) }
    ensures few { IfOk result (λ names. length names.items ≤ 1 + block_size handler.now.return_clause.body + sum_by clause_size handler.now.clauses) }
{
    let mut names = Vec::new(alloc);
    push_return_names(program, handler, &mut names)?;
    let clauses = handler.clauses.as_slice();
    push_clauses_names(program, name, clauses, &mut names)?;
    Ok(names)
}

/// Puts names behind those that have locals, with the locals from `from` on. It fails only for want of memory.
pub(crate) fn push_numbered<'a>(
    from: u32,
    names: &[TypedName<'a>],
    locals: &mut Vec<LocalName<'a>>,
) -> Result<(), AllocError>
    requires { from + length names.now ≤ number_limit }
    ensures value { OnOk result (locals_in locals.new.items ≡ locals_in locals.old.items ++ numbered from (bounds_of names.now)) }
{
    let mut next = from;
    for binding in names {
        locals.push(LocalName {
            name: binding.name,
            ty: binding.ty,
            number: next,
        })?;
        next += 1;
    }
    Ok(())
}

// The type of the local of a name.
fn local_type(ty: LocalType) -> PackedType
    ensures value { result ≡ val_type (type_of ty.entry) }
{
    match ty {
        LocalType::Int => PackedType::I64,
        LocalType::Resumption(_) => resumption_local(),
        LocalType::Coroutine => coroutine_local(),
    }
}

// The locals of names, one each.
fn name_runs(alloc: Global, names: &[TypedName]) -> Result<Vec<LocalRun>, AllocError>
    ensures value { IfOk result (λ runs. runs.items ≡ name_runs (bounds_of names.now)) }
{
    let mut runs = Vec::new(alloc);
    for binding in names {
        runs.push(LocalRun {
            count: 1,
            kind: local_type(binding.ty),
        })?;
    }
    Ok(runs)
}

/// The locals for these names, one each, and so many temporaries. It fails only for want of memory.
pub(crate) fn locals_for(
    alloc: Global,
    names: &[TypedName],
    temporaries: u32,
) -> Result<Locals, AllocError>
    requires { length names.now + temporaries ≤ number_limit }
    ensures value { IfOk result (λ locals. locals ≡ locals_for (bounds_of names.now) temporaries) }
{
    let mut runs = name_runs(alloc, names)?;
    runs.push(LocalRun {
        count: temporaries,
        kind: PackedType::I64,
    })?;
    Ok(Locals::of_runs(alloc, runs)?.unwrap())
}
