//! Whether a script is small enough.
ghost use Rattle.std.specs.Prelude.{◌≡◌, ◌≤◌, ◌↔◌, IsTrue, sum_by};
ghost use Rattle.s_check.specs.Size.{clause_size, definition_size, Size};
ghost use Rattle.s_size.specs.Left.{left_after, declared_size};

use crate::expression::after;
use crate::statement::after_block;
use s_syntax::{Clause, Declaration, Definition, Script};

// What is left of a budget after a clause.
fn after_clause(budget: u32, clause: &Clause) -> Option<u32>
    ensures value { result ≡ left_after (clause_size clause.now) budget }
{
    let left = after(after(budget, 2)?, clause.arguments.as_slice().len())?;
    after_block(left, &clause.body)
}

// What is left of it after clauses.
fn after_clauses(budget: u32, clauses: &[Clause]) -> Option<u32>
    ensures value { result ≡ left_after (sum_by clause_size clauses.now) budget }
{
    let mut left = budget;
    for clause in clauses {
        left = after_clause(left, clause)?;
    }
    Some(left)
}

// What is left of it after a definition.
fn after_definition(budget: u32, definition: &Definition) -> Option<u32>
    ensures value { result ≡ left_after (definition_size definition.now) budget }
{
    let left = after(budget, 1)?;
    match definition {
        Definition::Effect(_) | Definition::Slots(_) => Some(left),
        Definition::Function(function) => {
            let left = after(left, function.parameters.as_slice().len())?;
            after_block(left, &function.body)
        }
        Definition::Handler(handler) => {
            let left = after(left, handler.parameters.as_slice().len())?;
            let left = after_block(after(left, 2)?, &handler.return_clause.body)?;
            after_clauses(left, handler.clauses.as_slice())
        }
    }
}

// What is left of it after declarations.
fn after_declarations(budget: u32, all: &[Declaration]) -> Option<u32>
    ensures value { result ≡ left_after (declared_size all.now) budget }
{
    let mut left = budget;
    for declaration in all {
        left = after_definition(left, &declaration.definition)?;
    }
    Some(left)
}

/// Whether the size of a script is at most `limit`. It takes no memory, and looks at no more nodes than the limit and one more, where each
/// run of operands has an operator.
pub fn is_within(script: &Script, limit: u32) -> bool
    ensures value { IsTrue result ↔ (Size script.now ≤ limit) }
{
    after_declarations(limit, script.declarations.as_slice()).is_some()
}
