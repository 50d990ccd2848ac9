//! The code of functions and handlers.
ghost use Rattle.std.specs.Prelude.{◌≡◌, ◌≤◌, ◌+◌, ◌++◌, ◌∷◌, [], length, map, max, sum_by, IfOk, OnOk};
ghost use Rattle.std.specs.Option.{option_map};
ghost use Rattle.s_check.specs.Scopes.{parameter};
ghost use Rattle.s_check.specs.Size.{block_size, clause_size, definition_size, size_limit};
ghost use Rattle.s_syntax.specs.declared.script.Definition.TheVariants.{Handler as AHandler};
ghost use Rattle.s_code.specs.Clauses.{placed_all};
ghost use Rattle.s_code.specs.Handlers.{handler_body};
ghost use Rattle.s_code.specs.Lowered.{function_code, handler_code};
ghost use Rattle.s_code.specs.Places.{binds_in, function_layout, return_names, clause_names, return_layout, placed_clauses, handler_temporaries, locals_for, high_clauses};
ghost use Rattle.s_code.specs.Statements.{body};
ghost use Rattle.s_code.specs.Temporaries.{high_block};
ghost use Rattle.s_code.specs.Views.{owner_in};
ghost use Rattle.s_lower.specs.Views.{bounds_of, layout_of, placed_by};
ghost use Rattle.s_index.specs.Limits.{number_limit};

use crate::names::{
    TypedName, body_names, handler_names, locals_for, parameters, push_clause_names, push_numbered,
    return_names,
};
use s_code::{Layout, OwnHandler, Placed, function_body, handler_body, high_block};
use s_index::Program;
use s_syntax::{Clause, Function, Handler, Name};
use std::alloc::{AllocError, Global};
use w_syntax::{Body, Func, Locals};

// Where these names are, the own ones from the local `from` on.
fn layout<'a>(
    alloc: Global,
    parameters: &[TypedName<'a>],
    from: u32,
    own: &[TypedName<'a>],
    temporaries: u32,
    owner: Option<OwnHandler<'a>>,
) -> Result<Layout<'a>, AllocError>
    requires { from + length parameters.now + length own.now ≤ number_limit }
    ensures value { IfOk result (λ made. made ≡ layout_of (bounds_of parameters.now) (bounds_of own.now) from temporaries (option_map owner_in owner.entry)) }
{
    let mut names = Vec::new(alloc);
    push_numbered(0, parameters, &mut names)?;
    push_numbered(from, own, &mut names)?;
    Layout::new(alloc, names, temporaries, owner)
}

// The body of a function whose parameters and own names these are.
fn body_with<'a>(
    alloc: Global,
    program: &Program<'a>,
    function: &'a Function,
    parameters: &[TypedName<'a>],
    own: &[TypedName<'a>],
) -> Result<Body, AllocError>
    requires few { length parameters.now + length own.now + block_size function.now.body ≤ 200000 }
    requires parameters { bounds_of parameters.now ≡ map parameter function.now.parameters }
    requires own { bounds_of own.now ≡ binds_in program.now function.now.body }
    ensures value { IfOk result (λ made. made ≡ body program.now (function_layout program.now function.now) 0 function.now.body) }
{
    let from = parameters.len() as u32;
    let temporaries = from + own.len() as u32;
    let layout = layout(alloc, parameters, from, own, temporaries, None)?;
    function_body(alloc, program, &layout, &function.body)
}

/// The code of a function, which is no larger than 50,000. It fails only for want of memory.
pub(crate) fn function_code<'a>(
    alloc: Global,
    program: &Program<'a>,
    function: &'a Function,
) -> Result<Func, AllocError>
    requires { length function.now.parameters + block_size function.now.body ≤ size_limit }
    ensures value { IfOk result (λ code. code ≡ function_code program.now function.now) }
{
    let parameters = parameters(alloc, function.parameters.as_slice())?;
    let own = body_names(alloc, program, &function.body)?;
    let (parameters, own) = (parameters.as_slice(), own.as_slice());
    let locals = locals_for(alloc, own, high_block(&function.body))?;
    let body = body_with(alloc, program, function, parameters, own)?;
    Ok(Func { locals, body })
}

// How many temporaries clauses take.
#[tactic(auto, using(crate::proofs::Lengths::clauses_high, crate::proofs::Lengths::clauses_few))]
fn high_clauses(clauses: &[Clause]) -> u32
    requires { sum_by clause_size clauses.now ≤ size_limit }
    ensures value { result ≡ high_clauses clauses.now }
    ensures few { result ≤ sum_by clause_size clauses.now }
    ensures many { length clauses.now ≤ sum_by clause_size clauses.now }
{
    let mut most = 0;
    for clause in clauses {
        most = most.max(high_block(&clause.body));
    }
    most
}

// Puts a clause behind the others, with where its names are, those from the local `from` on. The local behind them is returned.
fn push_placed<'a>(
    alloc: Global,
    program: &Program<'a>,
    handler: &'a Name,
    parameters: &[TypedName<'a>],
    clause: &'a Clause,
    from: u32,
    temporaries: u32,
    placed: &mut Vec<Placed<'a>>,
) -> Result<u32, AllocError>
    requires { from + length parameters.now + clause_size clause.now ≤ 200000 }
    ensures next { IfOk result (λ next. next ≡ from + length (clause_names program.now handler.now clause.now)) }
    ensures few { length (clause_names program.now handler.now clause.now) ≤ clause_size clause.now }
    ensures value { OnOk result (placed_all placed.new.items ≡ placed_all placed.old.items ++ placed_by program.now handler.now (bounds_of parameters.now) temporaries from (clause.now ∷ [])) }
{
    let owner = OwnHandler {
        name: handler,
        parameters: parameters.len() as u32,
    };
    let mut own = Vec::new(alloc);
    push_clause_names(program, handler, clause, &mut own)?;
    let layout = layout(
        alloc,
        parameters,
        from,
        own.as_slice(),
        temporaries,
        Some(owner),
    )?;
    placed.push(Placed { clause, layout })?;
    Ok(from + own.len() as u32)
}

// Puts clauses behind the others, with where their names are, those of the first one from the local `from` on.
fn push_all_placed<'a>(
    alloc: Global,
    program: &Program<'a>,
    handler: &'a Name,
    parameters: &[TypedName<'a>],
    clauses: &'a [Clause],
    from: u32,
    temporaries: u32,
    placed: &mut Vec<Placed<'a>>,
) -> Result<(), AllocError>
    requires { from + length parameters.now + sum_by clause_size clauses.now ≤ 200000 }
    ensures value { OnOk result (placed_all placed.new.items ≡ placed_all placed.old.items ++ placed_by program.now handler.now (bounds_of parameters.now) temporaries from clauses.now) }
{
    let mut next = from;
    for clause in clauses {
        next = push_placed(
            alloc,
            program,
            handler,
            parameters,
            clause,
            next,
            temporaries,
            placed,
        )?;
    }
    Ok(())
}

// The body of a handler whose parameters and names of its clause for return these are.
fn handler_body_with<'a>(
    alloc: Global,
    program: &Program<'a>,
    name: &'a Name,
    handler: &'a Handler,
    parameters: &[TypedName<'a>],
    own: &[TypedName<'a>],
    temporaries: u32,
) -> Result<Body, AllocError>
    requires small { definition_size (AHandler handler.now) ≤ size_limit }
    requires few { length parameters.now + length own.now ≤ 100000 }
    requires parameters { bounds_of parameters.now ≡ map parameter handler.now.parameters }
    requires own { bounds_of own.now ≡ return_names program.now handler.now }
    requires temporaries { temporaries ≡ handler_temporaries program.now name.now handler.now }
    requires room { temporaries ≤ 200000 }
    ensures value { IfOk result (λ made. made ≡ handler_body program.now (return_layout program.now name.now handler.now) handler.now (placed_clauses program.now name.now handler.now)) }
{
    let count = parameters.len() as u32;
    let first = count + 1;
    let owner = OwnHandler {
        name,
        parameters: count,
    };
    let returning = layout(alloc, parameters, first, own, temporaries, Some(owner))?;
    let from = first + own.len() as u32;
    let clauses = handler.clauses.as_slice();
    let mut placed = Vec::new(alloc);
    push_all_placed(
        alloc,
        program,
        name,
        parameters,
        clauses,
        from,
        temporaries,
        &mut placed,
    )?;
    handler_body(alloc, program, &returning, handler, placed.as_slice())
}

// The locals of a handler whose names behind the parameters these are.
fn handler_locals(
    alloc: Global,
    handler: &Handler,
    names: &[TypedName],
) -> Result<Locals, AllocError>
    requires small { definition_size (AHandler handler.now) ≤ size_limit }
    requires few { length names.now ≤ 100000 }
    ensures value { IfOk result (λ locals. locals ≡ locals_for (bounds_of names.now) (max (high_block handler.now.return_clause.body) (high_clauses handler.now.clauses))) }
{
    let most = high_clauses(handler.clauses.as_slice());
    let most = high_block(&handler.return_clause.body).max(most);
    locals_for(alloc, names, most)
}

/// The code of a handler, which is no larger than 50,000. It fails only for want of memory.
pub(crate) fn handler_code<'a>(
    alloc: Global,
    program: &Program<'a>,
    name: &'a Name,
    handler: &'a Handler,
) -> Result<Func, AllocError>
    requires { definition_size (AHandler handler.now) ≤ size_limit }
    ensures value { IfOk result (λ code. code ≡ handler_code program.now name.now handler.now) }
{
    let parameters = parameters(alloc, handler.parameters.as_slice())?;
    let own = return_names(alloc, program, handler)?;
    let all = handler_names(alloc, program, name, handler)?;
    let (parameters, own, all) = (parameters.as_slice(), own.as_slice(), all.as_slice());
    let temporaries = parameters.len() as u32 + 1 + all.len() as u32;
    let locals = handler_locals(alloc, handler, all)?;
    let body = handler_body_with(alloc, program, name, handler, parameters, own, temporaries)?;
    Ok(Func { locals, body })
}
