//! Blocks, loops and ifs (Core, execution, control instructions).
ghost use Rattle.std.specs.Prelude.{◌≡◌, ◌+◌, ◌<◌, ◌≤◌, ◌^◌, length, IsSome, Some};
ghost use Rattle.w_syntax.specs.declared.instructions.Instr.TheVariants as flat;
ghost use Rattle.w_reduce.specs.Program.{arity_of, function_arity};
ghost use Rattle.w_stands.specs.Code.{AreNarrow};
ghost use Rattle.w_stands.specs.Keeps.{Keeps};
ghost use Rattle.w_stands.specs.Steps.{MovesAlone, FollowsAlone, Stays};
ghost use Rattle.w_stands.specs.declared.did.Did.TheVariants as did;
ghost use Rattle.w_control_ops.specs.Entering.{kept_by, target_of, start_of as start, IsLabelled};

use w_rules::func_type;
use w_segment::{Entry, Stack};
use w_stands::i32_of;
use w_syntax::{BlockKind, BlockType, Module};
use w_types::FuncType;

// How many operands a block takes and gives.
#[derive(Clone, Copy)]
struct BlockArity {
    params: u32,
    results: u32,
}

// A label that takes so many operands inside, and what a branch to it keeps and where it leads.
#[derive(Clone, Copy)]
struct Label {
    params: u32,
    arity: u32,
    target: u32,
}

// The arity of a block of a function type, which has fewer than 2^32 parameters and results.
fn function_arity(kind: &FuncType) -> BlockArity
    requires params { length kind.now.params < 2 ^ 32 }
    requires results { length kind.now.results < 2 ^ 32 }
    ensures { function_arity (Some kind.now) ≡ Some (record { params = result.params; results = result.results }) }
{
    BlockArity {
        params: kind.params.len() as u32,
        results: kind.results.len() as u32,
    }
}

// The arity of a block type, where it has one.
#[inline(always)]
fn block_arity(program: &Module, block_type: BlockType) -> BlockArity
    requires narrow { AreNarrow program.now }
    requires known { IsSome (arity_of program.now block_type) }
    ensures { arity_of program.now block_type ≡ Some (record { params = result.params; results = result.results }) }
{
    match block_type {
        BlockType::Empty => BlockArity {
            params: 0,
            results: 0,
        },
        BlockType::Value(_) => BlockArity {
            params: 0,
            results: 1,
        },
        BlockType::Index(index) => match func_type(program, index as usize) {
            Some(kind) => function_arity(kind),
            None => unreachable!(),
        },
    }
}

// Takes operands off, enters a label around those beneath, where there is room for it, and goes to a place.
#[inline(always)]
fn enter(stack: &mut Stack, popped: usize, label: Label, place: u32)
    requires there { popped + label.params ≤ length stack.old.operands }
    requires room { length stack.old.levels < stack.old.capacity.levels }
    ensures after { IsLabelled popped label.params label.arity label.target place stack.old stack.new }
{
    stack.discard(popped);
    stack.enter(Entry::Label {
        params: label.params,
        arity: label.arity,
        target: label.target,
    });
    stack.go(place);
}

// The label of a block at a place: it leads behind the block's end with the results, and that of a loop back to it with the parameters.
#[inline(always)]
fn label_of(kind: BlockKind, arity: BlockArity, place: u32, end: u32) -> Label
    requires end { end + 1 < 2 ^ 32 }
    ensures params { result.params ≡ arity.params }
    ensures arity { result.arity ≡ kept_by kind arity.params arity.results }
    ensures target { result.target ≡ target_of kind place end }
{
    match kind {
        BlockKind::Block => Label {
            params: arity.params,
            arity: arity.results,
            target: end + 1,
        },
        BlockKind::Loop => Label {
            params: arity.params,
            arity: arity.params,
            target: place,
        },
    }
}

/// `block` and `loop`, by the place of the end (Core, execution, control instructions: block, loop).
#[inline(always)]
pub fn block(program: &Module, stack: &mut Stack, kind: BlockKind, block_type: BlockType, end: u32)
    requires moves { MovesAlone (flat.Block kind block_type end) program.now stack.old }
    ensures goes { FollowsAlone did.Went program.now stack.old stack.new }
    ensures keeps { Keeps stack.old stack.new }
    ensures stays { Stays stack.old stack.new }
{
    let arity = block_arity(program, block_type);
    let place = stack.place();
    let label = label_of(kind, arity, place, end);
    enter(stack, 0, label, place + 1);
}

// Where the contents of an if begin that a number chooses; an if without an else has none for 0, and these stand at its end.
#[inline(always)]
fn start_of(number: u32, place: u32, otherwise: Option<u32>, end: u32) -> u32
    requires fits { start number place otherwise end < 2 ^ 32 }
    ensures { result ≡ start number place otherwise end }
{
    if number != 0 {
        return place + 1;
    }
    match otherwise {
        Some(otherwise) => otherwise + 1,
        None => end,
    }
}

/// `if`, by the places of the else, if it has one, and the end (Core, execution, control instructions: if).
#[inline(always)]
pub fn choice(
    program: &Module,
    stack: &mut Stack,
    block_type: BlockType,
    otherwise: Option<u32>,
    end: u32,
)
    requires moves { MovesAlone (flat.If block_type otherwise end) program.now stack.old }
    ensures goes { FollowsAlone did.Went program.now stack.old stack.new }
    ensures keeps { Keeps stack.old stack.new }
    ensures stays { Stays stack.old stack.new }
{
    let arity = block_arity(program, block_type);
    let place = stack.place();
    let label = label_of(BlockKind::Block, arity, place, end);
    let start = start_of(i32_of(stack.peek()), place, otherwise, end);
    enter(stack, 1, label, start);
}
