//! The clauses at which a segment waits.
ghost use Rattle.std.specs.Prelude.{◌≡◌, ◌<◌, Some, length};
ghost use Rattle.w_syntax.specs.Packed.{unpacked};
ghost use Rattle.w_segment.specs.Link.{top};
ghost use Rattle.w_reduce.specs.Handlers.{label_clause, has_switch};
ghost use Rattle.w_chain.specs.ClauseLists.{clauses_in, clauses_at, clauses_of};

use w_segment::Segment;
use w_syntax::{Clause, Instr, Module, Op, PackedInstr, SwitchingOp};

// The clauses of a resume, and none of any other instruction.
fn clauses_of_instr(instr: &Instr) -> &[Clause]
    ensures list { result.now ≡ clauses_in (Some instr.now) }
{
    match instr {
        Instr::Plain(Op::Switching(SwitchingOp::Resume(_, clauses))) => clauses.as_slice(),
        _ => &[],
    }
}

// The same of a packed one; a resume stands in a box.
fn clauses_of_packed(packed: &PackedInstr) -> &[Clause]
    ensures list { result.now ≡ clauses_in (Some (unpacked packed.now)) }
{
    match packed {
        PackedInstr::Boxed(instr) => clauses_of_instr(instr),
        _ => &[],
    }
}

// The same of the instruction at a place of a function's code.
fn clauses_at(program: &Module, function: u32, place: u32) -> &[Clause]
    ensures list { result.now ≡ clauses_at program.now function place }
{
    match program.codes.as_slice().get(function as usize) {
        Some(code) => match code.body.instrs().get(place as usize) {
            Some(packed) => clauses_of_packed(packed),
            None => &[],
        },
        None => &[],
    }
}

/// The clauses at which a segment waits: those of the resume at its place of clauses, in the code of its innermost frame's function.
pub(crate) fn clauses_of<'a>(program: &'a Module, waiting: &Segment) -> &'a [Clause]
    ensures list { result.now ≡ clauses_of program.now (top waiting.now) }
{
    clauses_at(program, waiting.stack().func(), waiting.clauses())
}

/// The label of the first label clause for a tag. Switch clauses are passed over.
pub(crate) fn label_of(clauses: &[Clause], tag: u32) -> Option<u32>
    ensures value { result ≡ label_clause tag clauses.now }
{
    for clause in clauses {
        if let Clause::Label(of, label) = clause {
            if *of == tag {
                return Some(*label);
            }
        }
    }
    None
}

/// Whether there is a switch clause for a tag. Label clauses are passed over.
pub(crate) fn has_switch(clauses: &[Clause], tag: u32) -> bool
    ensures answer { result ≡ has_switch tag clauses.now }
{
    for clause in clauses {
        if let Clause::Switch(of) = clause {
            if *of == tag {
                return true;
            }
        }
    }
    false
}
