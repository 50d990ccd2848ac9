//! The code of handlers.
ghost use Rattle.std.specs.Prelude.{◌≡◌, ◌≤◌, ◌+◌, ◌++◌, length, OnOk, IfOk};
ghost use Rattle.w_syntax.specs.Code.{Code, Done};
ghost use Rattle.s_check.specs.Size.{block_size};
ghost use Rattle.s_code.specs.Handlers.{set_names, clause_code, labels as labels_code, handling, turn, handler_body as handler_body_code};
ghost use Rattle.s_code.specs.Clauses.{placed_in, placed_all, opens, closes, AllFit};
ghost use Rattle.s_code.specs.Writes.{Writes};
ghost use Rattle.s_index.specs.Limits.{number_limit};

use crate::body::body_of;
use crate::layout::Layout;
use crate::operators::{write_get, write_set, write_switching, write_token};
use crate::statement::write_body;
use lists::ListOf;
use s_index::{COMPUTATION, Program};
use s_syntax::{Clause, Handler, Name};
use std::alloc::{AllocError, Global};
use w_syntax::{BlockKind, BlockType, Body, Clause as HandlerClause, SwitchingOp, Token};
use w_types::PackedType;

/// A clause, with where its names are.
#[derive(Drop)]
pub struct Placed<'a> {
    pub clause: &'a Clause,
    pub layout: Layout<'a>,
}

// Writes the setting of names from the stack, the last one first.
fn write_set_names<'a>(
    layout: &Layout<'a>,
    names: &'a [Name],
    out: &mut Vec<Token>,
) -> Result<(), AllocError>
    ensures writes { OnOk result ((c : Code) → Writes out.old.items (set_names layout.now names.now c) out.new.items c) }
{
    for behind in 0..names.len() {
        let name = &names[names.len() - 1 - behind];
        write_set(layout.local_number(name), out)?;
    }
    Ok(())
}

// Writes a clause, so many labels around it.
fn write_clause<'a>(
    program: &Program<'a>,
    labels: u32,
    placed: &Placed<'a>,
    out: &mut Vec<Token>,
) -> Result<(), AllocError>
    requires { placed.now.layout.temporaries + labels + block_size placed.now.clause.now.body ≤ number_limit }
    ensures writes { OnOk result (Writes out.old.items (clause_code program.now labels (placed_in placed.now)) out.new.items Done) }
{
    let clause = placed.clause;
    write_set(placed.layout.local_number(&clause.resumption), out)?;
    write_set_names(&placed.layout, clause.arguments.as_slice(), out)?;
    write_body(program, &placed.layout, labels, &clause.body, out)
}

// Opens the blocks of clauses, the last one's first.
fn open_blocks<'a>(
    program: &Program<'a>,
    all: &[Placed<'a>],
    out: &mut Vec<Token>,
) -> Result<(), AllocError>
    ensures opens { OnOk result (out.new.items ≡ out.old.items ++ opens program.now (placed_all all.now)) }
{
    for behind in 0..all.len() {
        let placed = &all[all.len() - 1 - behind];
        let index = program.clause_type_index(placed.clause.arguments.len())?;
        write_token(Token::Block(BlockKind::Block, BlockType::Index(index)), out)?;
    }
    Ok(())
}

// Closes the blocks of clauses, the first one's first, each with its clause behind it.
fn close_blocks<'a>(
    program: &Program<'a>,
    all: &[Placed<'a>],
    out: &mut Vec<Token>,
) -> Result<(), AllocError>
    requires fit { AllFit all.now }
    requires few { length all.now ≤ number_limit }
    ensures closes { OnOk result (out.new.items ≡ out.old.items ++ closes program.now (placed_all all.now)) }
{
    for index in 0..all.len() {
        write_token(Token::End, out)?;
        let labels = (all.len() - 1 - index) as u32;
        let placed = &all[index];
        write_clause(program, labels, placed, out)?;
    }
    Ok(())
}

// The clauses of the resume: each leaves its own block.
fn labels<'a>(
    alloc: Global,
    program: &Program<'a>,
    clauses: &'a [Clause],
) -> Result<ListOf<HandlerClause>, AllocError>
    requires { length clauses.now ≤ number_limit }
    ensures value { IfOk result (λ all. all ≡ labels_code program.now 0 clauses.now) }
{
    let mut all = Vec::new(alloc);
    for (index, clause) in clauses.iter().enumerate() {
        all.push(HandlerClause::Label(program.tag_index(&clause.effect), index as u32))?;
    }
    Ok(ListOf::from_vec(all))
}

// Writes the resume of what is handled under the clauses, and the return clause behind it, which ends its sequence.
fn write_handling<'a>(
    alloc: Global,
    program: &Program<'a>,
    layout: &Layout<'a>,
    handler: &'a Handler,
    out: &mut Vec<Token>,
) -> Result<(), AllocError>
    requires returns { layout.now.temporaries + length handler.now.clauses + block_size handler.now.return_clause.body ≤ number_limit }
    requires parameters { length handler.now.parameters ≤ number_limit }
    ensures writes { OnOk result (Writes out.old.items (handling program.now layout.now handler.now) out.new.items Done) }
{
    write_get(handler.parameters.len() as u32, out)?;
    let clauses = labels(alloc, program, handler.clauses.as_slice())?;
    write_switching(SwitchingOp::Resume(COMPUTATION, clauses), out)?;
    let returned = &handler.return_clause;
    write_set(layout.local_number(&returned.value), out)?;
    write_body(
        program,
        layout,
        handler.clauses.len() as u32,
        &returned.body,
        out,
    )
}

// Writes one turn of a handler's loop, which ends its sequence.
fn write_turn<'a>(
    alloc: Global,
    program: &Program<'a>,
    layout: &Layout<'a>,
    handler: &'a Handler,
    placed: &[Placed<'a>],
    out: &mut Vec<Token>,
) -> Result<(), AllocError>
    requires clauses { AllFit placed.now }
    requires few { length placed.now ≤ number_limit }
    requires returns { layout.now.temporaries + length handler.now.clauses + block_size handler.now.return_clause.body ≤ number_limit }
    requires parameters { length handler.now.parameters ≤ number_limit }
    ensures writes { OnOk result (Writes out.old.items (turn program.now layout.now handler.now (placed_all placed.now)) out.new.items Done) }
{
    open_blocks(program, placed, out)?;
    write_handling(alloc, program, layout, handler, out)?;
    close_blocks(program, placed, out)
}

/// The body of a handler's function: its loop. It fails only for want of memory.
pub fn handler_body<'a>(
    alloc: Global,
    program: &Program<'a>,
    layout: &Layout<'a>,
    handler: &'a Handler,
    placed: &[Placed<'a>],
) -> Result<Body, AllocError>
    requires clauses { AllFit placed.now }
    requires few { length placed.now ≤ number_limit }
    requires returns { layout.now.temporaries + length handler.now.clauses + block_size handler.now.return_clause.body ≤ number_limit }
    requires parameters { length handler.now.parameters ≤ number_limit }
    ensures value { IfOk result (λ made. made ≡ handler_body_code program.now layout.now handler.now (placed_all placed.now)) }
{
    let mut tokens = Vec::new(alloc);
    tokens.push(Token::Block(BlockKind::Loop, BlockType::Value(PackedType::I64)))?;
    write_turn(alloc, program, layout, handler, placed, &mut tokens)?;
    tokens.push(Token::End)?;
    body_of(alloc, tokens)
}
