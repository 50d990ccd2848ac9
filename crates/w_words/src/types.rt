//! The words of types.
ghost use Rattle.std.specs.Prelude.{◌≡◌, ◌++◌, OnOk};
ghost use Rattle.w_words.specs.Types.{heap_word, heap_of, prefix, ref_word, nullable_of, non_null_of, ref_of, val_word, val_of, block_word, type_index_of, block_of};

use crate::numbers::{index_of, put_number};
use crate::word::{PutWord, ReadWord, behind, is, put_text};
use std::alloc::AllocError;
use w_syntax::BlockType;
use w_types::{HeapType, PackedType, RefType, ValType};

impl ReadWord for HeapType {
    ghost of = { heap_of };

    fn read(word: &[u8]) -> Option<HeapType> {
        if is(word, "func") {
            return Some(HeapType::Func);
        }
        if is(word, "nofunc") {
            return Some(HeapType::NoFunc);
        }
        if is(word, "cont") {
            return Some(HeapType::Cont);
        }
        if is(word, "nocont") {
            return Some(HeapType::NoCont);
        }
        let index = index_of(word)?;
        Some(HeapType::Index(index))
    }
}

impl PutWord for HeapType {
    ghost word = { heap_word };

    fn put(&self, out: &mut Vec<u8>) -> Result<(), AllocError> {
        match *self {
            HeapType::Func => put_text("func", out),
            HeapType::NoFunc => put_text("nofunc", out),
            HeapType::Cont => put_text("cont", out),
            HeapType::NoCont => put_text("nocont", out),
            HeapType::Index(index) => put_number(u64::from(index), out),
        }
    }
}

// The type of references that may be null that a word is.
fn nullable_of(word: &[u8]) -> Option<RefType>
    ensures { result ≡ nullable_of word.now }
{
    let rest = behind(word, "null:")?;
    let heap = HeapType::read(rest)?;
    Some(RefType::or_null(heap))
}

// The type of references that are not null that a word is.
fn non_null_of(word: &[u8]) -> Option<RefType>
    ensures { result ≡ non_null_of word.now }
{
    let rest = behind(word, "ref:")?;
    let heap = HeapType::read(rest)?;
    Some(RefType::non_null(heap))
}

impl ReadWord for RefType {
    ghost of = { ref_of };

    fn read(word: &[u8]) -> Option<RefType> {
        match nullable_of(word) {
            Some(reference) => Some(reference),
            None => non_null_of(word),
        }
    }
}

impl PutWord for RefType {
    ghost word = { ref_word };

    fn put(&self, out: &mut Vec<u8>) -> Result<(), AllocError> {
        let prefix = if self.nullable { "null:" } else { "ref:" };
        put_text(prefix, out)?;
        self.heap.put(out)
    }
}

impl ReadWord for PackedType {
    ghost of = { val_of };

    fn read(word: &[u8]) -> Option<PackedType> {
        if is(word, "i32") {
            return Some(PackedType::I32);
        }
        if is(word, "i64") {
            return Some(PackedType::I64);
        }
        let reference = RefType::read(word)?;
        Some(PackedType::reference(reference))
    }
}

impl PutWord for PackedType {
    ghost word = { val_word };

    fn put(&self, out: &mut Vec<u8>) -> Result<(), AllocError> {
        match self.whole() {
            ValType::I32 => put_text("i32", out),
            ValType::I64 => put_text("i64", out),
            ValType::Ref(reference) => reference.put(out),
        }
    }
}

// The type of a block by its index that a word is.
fn type_index_of(word: &[u8]) -> Option<BlockType>
    ensures { result ≡ type_index_of word.now }
{
    let rest = behind(word, "type:")?;
    let index = index_of(rest)?;
    Some(BlockType::Index(index))
}

impl ReadWord for BlockType {
    ghost of = { block_of };

    fn read(word: &[u8]) -> Option<BlockType> {
        if is(word, "void") {
            return Some(BlockType::Empty);
        }
        match type_index_of(word) {
            Some(block) => Some(block),
            None => {
                let kind = PackedType::read(word)?;
                Some(BlockType::Value(kind))
            }
        }
    }
}

impl PutWord for BlockType {
    ghost word = { block_word };

    fn put(&self, out: &mut Vec<u8>) -> Result<(), AllocError> {
        match *self {
            BlockType::Empty => put_text("void", out),
            BlockType::Value(kind) => kind.put(out),
            BlockType::Index(index) => {
                put_text("type:", out)?;
                put_number(u64::from(index), out)
            }
        }
    }
}
