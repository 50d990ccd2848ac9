//! Keys of groups: two groups have one key exactly where they are equal.
ghost use Rattle.std.specs.Prelude.{◌≡◌, ◌++◌, IfOk, OnOk};
ghost use Rattle.w_canon.specs.Keys.{index_word, heap_word, value_word, value_words, type_words, head_word, supertype_words, subtype_words, group_words};

use crate::entry::{Class, Entry};
use std::alloc::{AllocError, Global};
use w_types::{CompType, HeapType, PackedType, RecGroup, SubType, ValType};

/// A heap type. An index is a position in the group of the key, or a class of a type outside.
#[derive(Clone, Copy, Debug, PartialEq, Eq, PartialOrd, Ord)]
pub enum HeapWord {
    Func,
    NoFunc,
    Cont,
    NoCont,
    Inside(usize),
    Outside(Class),
}

/// A value type.
#[derive(Clone, Copy, Debug, PartialEq, Eq, PartialOrd, Ord)]
pub enum ValueWord {
    I32,
    I64,
    NonNull(HeapWord),
    Nullable(HeapWord),
}

/// A part of a key. Counts stand in front of what they count, so that no key is read two ways.
#[derive(Clone, Copy, Debug, PartialEq, Eq, PartialOrd, Ord)]
pub enum Word {
    Final { supertypes: usize },
    Open { supertypes: usize },
    Supertype(HeapWord),
    Func { params: usize, results: usize },
    Cont(HeapWord),
    Value(ValueWord),
}

// An index in a group behind these types.
fn index_word(earlier: &[Entry], index: u32) -> HeapWord
    ensures { result ≡ index_word earlier.now index }
{
    let index = index as usize;
    match earlier.get(index) {
        Some(entry) => HeapWord::Outside(entry.class),
        None => HeapWord::Inside(index - earlier.len()),
    }
}

fn heap_word(earlier: &[Entry], heap: HeapType) -> HeapWord
    ensures { result ≡ heap_word earlier.now heap }
{
    match heap {
        HeapType::Func => HeapWord::Func,
        HeapType::NoFunc => HeapWord::NoFunc,
        HeapType::Cont => HeapWord::Cont,
        HeapType::NoCont => HeapWord::NoCont,
        HeapType::Index(index) => index_word(earlier, index),
    }
}

fn value_word(earlier: &[Entry], value: PackedType) -> ValueWord
    ensures { result ≡ value_word earlier.now value }
{
    match value.whole() {
        ValType::I32 => ValueWord::I32,
        ValType::I64 => ValueWord::I64,
        ValType::Ref(kind) => {
            let heap = heap_word(earlier, kind.heap);
            if kind.nullable {
                ValueWord::Nullable(heap)
            } else {
                ValueWord::NonNull(heap)
            }
        }
    }
}

fn push_values(
    words: &mut Vec<Word>,
    earlier: &[Entry],
    values: &[PackedType],
) -> Result<(), AllocError>
    ensures { OnOk result (words.new.items ≡ words.old.items ++ value_words earlier.now values.now) }
{
    for value in values {
        words.push(Word::Value(value_word(earlier, *value)))?;
    }
    Ok(())
}

fn push_type(words: &mut Vec<Word>, earlier: &[Entry], kind: &CompType) -> Result<(), AllocError>
    ensures { OnOk result (words.new.items ≡ words.old.items ++ type_words earlier.now kind.now) }
{
    match kind {
        CompType::Func(function) => {
            words.push(Word::Func {
                params: function.params.len(),
                results: function.results.len(),
            })?;
            push_values(words, earlier, function.params.as_slice())?;
            push_values(words, earlier, function.results.as_slice())
        }
        CompType::Cont(index) => {
            words.push(Word::Cont(index_word(earlier, *index)))?;
            Ok(())
        }
    }
}

// The word in front of a type with so many supertypes.
fn head_word(is_final: bool, supertypes: usize) -> Word
    ensures { result ≡ head_word is_final supertypes }
{
    if is_final {
        Word::Final { supertypes }
    } else {
        Word::Open { supertypes }
    }
}

fn push_supertypes(
    words: &mut Vec<Word>,
    earlier: &[Entry],
    supertypes: &[u32],
) -> Result<(), AllocError>
    ensures { OnOk result (words.new.items ≡ words.old.items ++ supertype_words earlier.now supertypes.now) }
{
    for supertype in supertypes {
        words.push(Word::Supertype(index_word(earlier, *supertype)))?;
    }
    Ok(())
}

fn push_subtype(words: &mut Vec<Word>, earlier: &[Entry], kind: &SubType) -> Result<(), AllocError>
    ensures { OnOk result (words.new.items ≡ words.old.items ++ subtype_words earlier.now kind.now) }
{
    words.push(head_word(kind.is_final, kind.supertypes.len()))?;
    push_supertypes(words, earlier, kind.supertypes.as_slice())?;
    push_type(words, earlier, &kind.composite)
}

/// The key of a group behind these types.
pub fn key_of(alloc: Global, earlier: &[Entry], group: &RecGroup) -> Result<Vec<Word>, AllocError>
    ensures { IfOk result (λ words. words.items ≡ group_words earlier.now group.now) }
{
    let mut words = Vec::new(alloc);
    for kind in group.types.as_slice() {
        push_subtype(&mut words, earlier, kind)?;
    }
    Ok(words)
}
