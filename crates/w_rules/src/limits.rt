//! The limits on a module's size.
ghost use Rattle.std.specs.Prelude.{◌≡◌, ◌+◌, ◌≤◌, ◌<◌, ◌↔◌, ◌^◌, All, length, IsTrue, IfSome, IfNone};
ghost use Rattle.w_types.specs.declared.types.SubType.{SubType};
ghost use Rattle.w_types.specs.Groups.{types_of};
ghost use Rattle.w_syntax.specs.Functions.{type_of_function};
ghost use Rattle.w_syntax.specs.Locals.{total};
ghost use Rattle.w_rules.specs.Limits.{params_in, locals_of, most_locals, IsNarrow, Keeps, Within, Passes};

use crate::functions::function_type;
use w_syntax::{LocalRun, Module};
use w_types::{CompType, RecGroup};

/// A quantity of a module that has a limit.
#[derive(Clone, Copy, Debug, PartialEq, Eq)]
pub enum SizeLimit {
    /// Types of a module: 10,000.
    Types,
    /// Parameters, and results, of one function type: 1,000.
    Params,
    /// Locals of one function, its parameters among them: 50,000.
    Locals,
}

const MOST_TYPES: usize = 10_000;

const MOST_PARAMS: usize = 1_000;

const MOST_LOCALS: usize = 50_000;

// Whether a type has at most so many parameters and results.
fn is_narrow(kind: &CompType) -> bool
    ensures { IsTrue result ↔ IsNarrow kind.now }
{
    match kind {
        CompType::Func(kind) => {
            kind.params.len() <= MOST_PARAMS && kind.results.len() <= MOST_PARAMS
        }
        CompType::Cont(_) => true,
    }
}

// Whether each type of a group is narrow.
fn is_group_narrow(group: &RecGroup) -> bool
    ensures { IsTrue result ↔ All (λ (kind : SubType). IsNarrow kind.composite) group.now.types }
{
    group
        .types
        .as_slice()
        .iter()
        .all(|kind| is_narrow(&kind.composite))
}

// Whether each type of these groups is narrow.
fn are_narrow(groups: &[RecGroup]) -> bool
    ensures { IsTrue result ↔ All IsNarrow (types_of groups.now) }
{
    groups.iter().all(|group| is_group_narrow(group))
}

// Whether the runs have at most so many locals. The sum is never formed, since it may be large.
fn fits_within(room: usize, runs: &[LocalRun]) -> bool
    ensures { IsTrue result ↔ (total runs.now ≤ room) }
{
    let mut left = room;
    for run in runs {
        let count = run.count as usize;
        if count > left {
            return false;
        }
        left -= count;
    }
    true
}

// How many parameters the function of this index has.
fn params_of(candidate: &Module, index: usize) -> usize
    ensures { result ≡ params_in (type_of_function candidate.now index) }
{
    match function_type(candidate, index) {
        Some(kind) => kind.params.len(),
        None => 0,
    }
}

/// Whether the function of this index keeps the limit on locals.
pub fn keeps_locals(candidate: &Module, index: usize) -> bool
    requires { index < length candidate.now.codes }
    ensures { IsTrue result ↔ (locals_of candidate.now index ≤ most_locals) }
{
    let params = params_of(candidate, index);
    let code = &candidate.codes.as_slice()[index];
    params <= MOST_LOCALS && fits_within(MOST_LOCALS - params, code.locals.as_slice())
}

// Whether each function keeps the limit on locals.
fn all_keep_locals(candidate: &Module) -> bool
    ensures { IsTrue result ↔ Keeps candidate.now SizeLimit.Locals }
{
    for index in 0..candidate.codes.len() {
        if !keeps_locals(candidate, index) {
            return false;
        }
    }
    true
}

/// Whether a module keeps the limits on its types.
pub fn keeps_type_limits(candidate: &Module) -> bool
    ensures { IsTrue result ↔ (Keeps candidate.now SizeLimit.Types × Keeps candidate.now SizeLimit.Params) }
{
    candidate.types.type_count() <= MOST_TYPES && are_narrow(candidate.types.as_slice())
}

/// The first limit that a module passes, in the order types, parameters, locals. `None` where it keeps all of them.
pub fn limits_of(candidate: &Module) -> Option<SizeLimit>
    ensures none { IfNone result (Within candidate.now) }
    ensures some { IfSome result (λ name. Passes candidate.now name) }
{
    if candidate.types.type_count() > MOST_TYPES {
        return Some(SizeLimit::Types);
    }
    if !are_narrow(candidate.types.as_slice()) {
        return Some(SizeLimit::Params);
    }
    if !all_keep_locals(candidate) {
        return Some(SizeLimit::Locals);
    }
    None
}
