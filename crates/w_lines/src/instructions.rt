//! Instructions: a name, and what stands behind it.
ghost use Rattle.std.specs.Prelude.{◌≡◌, ◌<◌, ◌≤◌, ◌+◌, ◌^◌, ◌++◌, ℕ, ℤ, List, IfOk, IfSome, length};
ghost use Rattle.arrayvec.specs.ArrayVec.{array_vec_len};
ghost use Rattle.w_types.specs.declared.types.HeapType.{HeapType as TheHeap};
ghost use Rattle.w_types.specs.declared.types.ValType.{ValType as TheType};
ghost use Rattle.w_syntax.specs.declared.memory_instructions.MemArg.{MemArg as TheMemArg};
ghost use Rattle.w_syntax.specs.declared.instructions.BlockType.{BlockType as TheBlock};
ghost use Rattle.w_syntax.specs.declared.instructions.Clause.{Clause as TheClause};
ghost use Rattle.w_syntax.specs.declared.instructions.Token.{Token as TheToken};
ghost use Rattle.w_words.specs.Words.{two_of};
ghost use Rattle.w_words.specs.Numbers.{number_of};
ghost use Rattle.w_lines.specs.Instructions.{Alone, Index, Indices, Access, Const32, Const64, Heap, Types, Labels, Clauses, Blocks, handler_of, token_of};
ghost use Rattle.w_lines.specs.NameTable.{IsRow, opcode_bytes, Makes, ReadsAs};

use crate::names::{Immediates, NameRow};
use arrayvec::ArrayVec;
use lists::ListOf;
use std::alloc::{AllocError, Global};
use w_code::token_at;
use w_leb::{put_u32, put_u64};
use w_syntax::{
    BlockKind, BlockType, Clause, ControlOp, NumericOp, Op, ParametricOp, ReferenceOp, SwitchingOp,
    Token,
};
use w_types::HeapType;
use w_words::{Words, index_of, labels_of, number_of, read_each, read_one, read_two};

// An opcode of two bytes at most, and two numbers of ten.
type Spelling = ArrayVec<u8, 22>;

// Adds bytes for which there is room.
fn extend(bytes: &mut Spelling, more: &[u8])
    requires { array_vec_len bytes.old + length more.now ≤ 22 }
    ensures items { bytes.new.items ≡ bytes.old.items ++ more.now }
    ensures len { array_vec_len bytes.new ≡ array_vec_len bytes.old + length more.now }
{
    let _fits = bytes.try_extend_from_slice(more);
}

// The token that an opcode and what stands behind it spell.
fn spelled(
    alloc: Global,
    opcode: u16,
    first: &[u8],
    second: &[u8],
) -> Result<Option<Token>, AllocError>
    requires { (length first.now ≤ 10) × (length second.now ≤ 10) }
    ensures { IfOk result (ReadsAs (opcode_bytes opcode ++ (first.now ++ second.now))) }
{
    let mut bytes = Spelling::new();
    if opcode >= 256 {
        bytes.push((opcode / 256) as u8);
    }
    bytes.push((opcode % 256) as u8);
    extend(&mut bytes, first);
    extend(&mut bytes, second);
    match token_at(alloc, bytes.as_slice(), 0)? {
        Some((token, _)) => Ok(Some(token)),
        None => Ok(None),
    }
}

// An instruction that is its name alone.
#[tactic(auto, using(crate::proofs::TokensRead::alone_none, crate::proofs::TokensRead::alone_some))]
fn alone(alloc: Global, opcode: u16, words: &mut Words) -> Result<Option<Token>, AllocError>
    ensures { IfOk result (λ o. (t : TheToken) → Makes opcode (Alone t) words.old o) }
{
    match words.next() {
        Some(_) => Ok(None),
        None => spelled(alloc, opcode, &[], &[]),
    }
}

// An instruction with an index.
#[tactic(auto, using(crate::proofs::TokensRead::index_none, crate::proofs::TokensRead::index_some))]
fn indexed(alloc: Global, opcode: u16, words: &mut Words) -> Result<Option<Token>, AllocError>
    ensures { IfOk result (λ o. (f : ℕ → TheToken) → Makes opcode (Index f) words.old o) }
{
    let Some(index) = read_one(words) else {
        return Ok(None);
    };
    spelled(alloc, opcode, put_u32(index).as_slice(), &[])
}

// An instruction with two indices.
#[tactic(auto, using(crate::proofs::TokensRead::indices_none, crate::proofs::TokensRead::indices_some))]
fn indexed_twice(alloc: Global, opcode: u16, words: &mut Words) -> Result<Option<Token>, AllocError>
    ensures { IfOk result (λ o. (f : ℕ → ℕ → TheToken) → Makes opcode (Indices f) words.old o) }
{
    let Some((first, second)) = read_two(words) else {
        return Ok(None);
    };
    spelled(
        alloc,
        opcode,
        put_u32(first).as_slice(),
        put_u32(second).as_slice(),
    )
}

// The exponent of an alignment, and an offset.
#[tactic(auto, using(w_words::proofs::Numerals::number_below))]
fn access_of(words: &mut Words) -> Option<(u32, u64)>
    ensures access { result ≡ two_of (number_of 6) (number_of 64) words.old }
    ensures fits { IfSome result (λ access. access.0 < 2 ^ 6) }
{
    let (align, offset) = words.pair()?;
    let align = number_of(align, 6)?;
    let offset = number_of(offset, 64)?;
    Some((align as u32, offset))
}

// A load or a store.
#[tactic(auto, using(crate::proofs::TokensRead::access_none, crate::proofs::TokensRead::access_some))]
fn accessing(alloc: Global, opcode: u16, words: &mut Words) -> Result<Option<Token>, AllocError>
    ensures { IfOk result (λ o. (f : TheMemArg → TheToken) → Makes opcode (Access f) words.old o) }
{
    let Some((align, offset)) = access_of(words) else {
        return Ok(None);
    };
    spelled(
        alloc,
        opcode,
        put_u32(align).as_slice(),
        put_u64(offset).as_slice(),
    )
}

// A block, a loop or an if, by its opcode.
fn block(opcode: u16, words: &mut Words) -> Option<Token>
    ensures { (f : TheBlock → TheToken) → Makes opcode (Blocks f) words.old result }
{
    let block = read_one(words)?;
    if opcode == 2 {
        return Some(Token::Block(BlockKind::Block, block));
    }
    if opcode == 3 {
        return Some(Token::Block(BlockKind::Loop, block));
    }
    Some(Token::If(block))
}

// A constant of 32 bits.
fn constant_32(words: &mut Words) -> Option<Token>
    ensures { (k : ℕ) (f : ℤ → TheToken) → Makes k (Const32 f) words.old result }
{
    let number = read_one(words)?;
    Some(Token::Plain(Op::Numeric(NumericOp::I32Const(number))))
}

// A constant of 64 bits.
fn constant_64(words: &mut Words) -> Option<Token>
    ensures { (k : ℕ) (f : ℤ → TheToken) → Makes k (Const64 f) words.old result }
{
    let number = read_one(words)?;
    Some(Token::Plain(Op::Numeric(NumericOp::I64Const(number))))
}

// `ref.null`.
fn null(words: &mut Words) -> Option<Token>
    ensures { (k : ℕ) (f : TheHeap → TheToken) → Makes k (Heap f) words.old result }
{
    let heap: HeapType = read_one(words)?;
    Some(Token::Plain(Op::Reference(ReferenceOp::Null(heap))))
}

// `select` with types.
fn select(alloc: Global, words: &mut Words) -> Result<Option<Token>, AllocError>
    ensures { IfOk result (λ o. (k : ℕ) (f : List TheType → TheToken) → Makes k (Types f) words.old o) }
{
    let Some(types) = read_each(alloc, words)? else {
        return Ok(None);
    };
    let select = ParametricOp::SelectOf(types);
    Ok(Some(Token::Plain(Op::Parametric(select))))
}

// `br_table`.
fn br_table(alloc: Global, words: &mut Words) -> Result<Option<Token>, AllocError>
    ensures { IfOk result (λ o. (k : ℕ) (f : List ℕ → ℕ → TheToken) → Makes k (Labels f) words.old o) }
{
    let Some((labels, last)) = labels_of(alloc, words)? else {
        return Ok(None);
    };
    let br_table = ControlOp::BrTable(labels, last);
    Ok(Some(Token::Plain(Op::Control(br_table))))
}

// A continuation type, and clauses.
fn handler_of(alloc: Global, words: &mut Words) -> Result<Option<(u32, ListOf<Clause>)>, AllocError>
    ensures { IfOk result (λ handler. handler ≡ handler_of words.old) }
{
    let Some(word) = words.next() else {
        return Ok(None);
    };
    let Some(kind) = index_of(word) else {
        return Ok(None);
    };
    let Some(clauses) = read_each(alloc, words)? else {
        return Ok(None);
    };
    Ok(Some((kind, clauses)))
}

// `resume`.
fn resume(alloc: Global, words: &mut Words) -> Result<Option<Token>, AllocError>
    ensures { IfOk result (λ o. (k : ℕ) (f : ℕ → List TheClause → TheToken) → Makes k (Clauses f) words.old o) }
{
    let Some((kind, clauses)) = handler_of(alloc, words)? else {
        return Ok(None);
    };
    let resume = SwitchingOp::Resume(kind, clauses);
    Ok(Some(Token::Plain(Op::Switching(resume))))
}

/// The instruction, or the mark of the nesting, that a name of this row and the words behind it are. It fails only for want of memory.
pub(crate) fn token_of(
    alloc: Global,
    row: NameRow,
    words: &mut Words,
) -> Result<Option<Token>, AllocError>
    ensures { IfOk result (λ o. (name : List ℕ) → IsRow name row → o ≡ token_of name words.old) }
{
    match row.immediates {
        Immediates::None => alone(alloc, row.opcode, words),
        Immediates::Index => indexed(alloc, row.opcode, words),
        Immediates::Indices => indexed_twice(alloc, row.opcode, words),
        Immediates::Access => accessing(alloc, row.opcode, words),
        Immediates::Block => Ok(block(row.opcode, words)),
        Immediates::Const32 => Ok(constant_32(words)),
        Immediates::Const64 => Ok(constant_64(words)),
        Immediates::Heap => Ok(null(words)),
        Immediates::Types => select(alloc, words),
        Immediates::Labels => br_table(alloc, words),
        Immediates::Clauses => resume(alloc, words),
    }
}
