//! Blocks, and where sequences end.
ghost use Rattle.std.specs.Prelude.{[]};
ghost use Rattle.w_syntax.specs.declared.instructions.Instr.TheVariants as flat;
ghost use Rattle.w_stands.specs.Steps.{MovesAt, Stays};
ghost use Rattle.w_plain.specs.Stepped.{Takes};

use w_control_ops::{block, choice};
use w_segment::Stack;
use w_stands::Did;
use w_syntax::{BlockKind, BlockType, Module};
use w_tables::Store;

/// A block or a loop, with the place of its end.
#[inline(always)]
#[tactic(auto, using(crate::proofs::Steps::alone))]
pub(crate) fn enter_block(
    program: &Module,
    store: &mut Store,
    stack: &mut Stack,
    kind: BlockKind,
    block_type: BlockType,
    end: u32,
) -> Did
    requires moves { MovesAt (flat.Block kind block_type end) program.now store.old stack.old }
    ensures step { Takes result program.now [] store.old stack.old store.new stack.new }
    ensures stays { Stays stack.old stack.new }
{
    let _store = store;
    block(program, stack, kind, block_type, end);
    Did::Went
}

/// An if, with the places of its else, where it has one, and of its end.
#[inline(always)]
#[tactic(auto, using(crate::proofs::Steps::alone))]
pub(crate) fn enter_choice(
    program: &Module,
    store: &mut Store,
    stack: &mut Stack,
    block_type: BlockType,
    otherwise: Option<u32>,
    end: u32,
) -> Did
    requires moves { MovesAt (flat.If block_type otherwise end) program.now store.old stack.old }
    ensures step { Takes result program.now [] store.old stack.old store.new stack.new }
    ensures stays { Stays stack.old stack.new }
{
    let _store = store;
    choice(program, stack, block_type, otherwise, end);
    Did::Went
}
