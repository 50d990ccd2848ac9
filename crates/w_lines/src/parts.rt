//! Parts of lines: limits, and the types of what modules define.
ghost use Rattle.std.specs.Prelude.{◌≡◌, IfOk, option_map};
ghost use Rattle.w_lines.specs.Spelling.{max_of, mutability_of, limits_of, table_in, table_of, global_of, func_of, composite_of, below_of, extern_of, index_of};

use lists::ListOf;
use std::alloc::{AllocError, Global};
use w_syntax::{ExternIndex, ExternType, GlobalType, Limits, Mutability, TableType, Tag};
use w_types::{CompType, FuncType, PackedType, RefType};
use w_words::{ReadWord, Words, is, number_of, read_each, read_one, read_until};

// The greatest size that a word is, or that there is none.
fn max_of(word: &[u8]) -> Option<Option<u64>>
    ensures { result ≡ max_of word.now }
{
    if is(word, "-") {
        return Some(None);
    }
    let max = number_of(word, 64)?;
    Some(Some(max))
}

// Whether a global may be written.
fn mutability_of(word: &[u8]) -> Option<Mutability>
    ensures { result ≡ mutability_of word.now }
{
    if is(word, "const") {
        return Some(Mutability::Const);
    }
    if is(word, "var") {
        return Some(Mutability::Var);
    }
    None
}

/// Limits.
pub(crate) fn limits_of(words: &mut Words) -> Option<Limits>
    ensures { result ≡ limits_of words.old }
{
    let (min, max) = words.pair()?;
    let min = number_of(min, 64)?;
    let max = max_of(max)?;
    Some(Limits { min, max })
}

/// The type of a table, with which the words begin.
pub(crate) fn table_in(words: &mut Words) -> Option<TableType>
    ensures { option_map (λ t. (t, words.new)) result ≡ table_in words.old }
{
    let element = RefType::read(words.next()?)?;
    let min = number_of(words.next()?, 64)?;
    let max = max_of(words.next()?)?;
    Some(TableType {
        element,
        limits: Limits { min, max },
    })
}

// The type of a table.
fn table_of(words: &mut Words) -> Option<TableType>
    ensures { result ≡ table_of words.old }
{
    let kind = table_in(words)?;
    match words.next() {
        Some(_) => None,
        None => Some(kind),
    }
}

/// The type of a global.
pub(crate) fn global_of(words: &mut Words) -> Option<GlobalType>
    ensures { result ≡ global_of words.old }
{
    let (kind, mutability) = words.pair()?;
    let kind = PackedType::read(kind)?;
    let mutability = mutability_of(mutability)?;
    Some(GlobalType { kind, mutability })
}

/// The type of what is imported.
pub(crate) fn extern_of(words: &mut Words) -> Option<ExternType>
    ensures { result ≡ extern_of words.old }
{
    let word = words.next()?;
    if is(word, "func") {
        return Some(ExternType::Func(read_one(words)?));
    }
    if is(word, "table") {
        return Some(ExternType::Table(table_of(words)?));
    }
    if is(word, "memory") {
        return Some(ExternType::Memory(limits_of(words)?));
    }
    if is(word, "global") {
        return Some(ExternType::Global(global_of(words)?));
    }
    if is(word, "tag") {
        let type_index = read_one(words)?;
        return Some(ExternType::Tag(Tag { type_index }));
    }
    None
}

/// What is exported.
pub(crate) fn index_of(words: &mut Words) -> Option<ExternIndex>
    ensures { result ≡ index_of words.old }
{
    let word = words.next()?;
    if is(word, "func") {
        return Some(ExternIndex::Func(read_one(words)?));
    }
    if is(word, "table") {
        return Some(ExternIndex::Table(read_one(words)?));
    }
    if is(word, "memory") {
        return Some(ExternIndex::Memory(read_one(words)?));
    }
    if is(word, "global") {
        return Some(ExternIndex::Global(read_one(words)?));
    }
    if is(word, "tag") {
        return Some(ExternIndex::Tag(read_one(words)?));
    }
    None
}

/// A function type. It fails only for want of memory.
pub(crate) fn func_of(alloc: Global, words: &mut Words) -> Result<Option<FuncType>, AllocError>
    ensures { IfOk result (λ kind. kind ≡ func_of words.old) }
{
    let Some(params) = read_until(alloc, "->", words)? else {
        return Ok(None);
    };
    let Some(results) = read_each(alloc, words)? else {
        return Ok(None);
    };
    Ok(Some(FuncType { params, results }))
}

// A composite type.
fn composite_of(alloc: Global, words: &mut Words) -> Result<Option<CompType>, AllocError>
    ensures { IfOk result (λ composite. composite ≡ composite_of words.old) }
{
    let Some(word) = words.next() else {
        return Ok(None);
    };
    if is(word, "func") {
        let Some(kind) = func_of(alloc, words)? else {
            return Ok(None);
        };
        return Ok(Some(CompType::Func(kind)));
    }
    if is(word, "cont") {
        let Some(kind) = read_one(words) else {
            return Ok(None);
        };
        return Ok(Some(CompType::Cont(kind)));
    }
    Ok(None)
}

/// Supertypes, and a composite type. It fails only for want of memory.
pub(crate) fn below_of(
    alloc: Global,
    words: &mut Words,
) -> Result<Option<(ListOf<u32>, CompType)>, AllocError>
    ensures { IfOk result (λ below. below ≡ below_of words.old) }
{
    let Some(supertypes) = read_until(alloc, ":", words)? else {
        return Ok(None);
    };
    let Some(composite) = composite_of(alloc, words)? else {
        return Ok(None);
    };
    Ok(Some((supertypes, composite)))
}
