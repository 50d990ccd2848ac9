//! The function types that switching instructions name.
ghost use Rattle.std.specs.Prelude.{◌≡◌, slice_get};
ghost use Rattle.std.specs.Option.{option_copied};
ghost use Rattle.w_rules.specs.Context.{cont_of, type_of_tag};
ghost use Rattle.w_rules.specs.Spaces.{context_of, tags_of};
ghost use Rattle.lists.specs.Rows.{row_of};
ghost use Rattle.w_reduce.specs.Switching.{back_type, heap_index};
ghost use Rattle.w_switching.specs.BackTypes.{back_of};

use w_rules::func_type;
use w_syntax::{ExternType, Module, Tag};
use w_types::{CompType, FuncType, HeapType, PackedType, ValType};

/// The function type of the continuation type of this index (stack-switching explainer, types); `None` where the type of this index is
/// none, or names none.
pub(crate) fn cont_type(program: &Module, index: u32) -> Option<&FuncType>
    ensures kind { option_copied result ≡ cont_of (context_of program.now) index }
{
    match program.types.get(index as usize) {
        Some(CompType::Cont(function)) => func_type(program, *function as usize),
        Some(CompType::Func(_)) | None => None,
    }
}

// The tag at a place of a list.
fn listed_tag(tags: &[Tag], place: usize) -> Option<Tag>
    ensures tag { result ≡ slice_get tags.now place }
{
    tags.get(place).copied()
}

// The tag of this index: those that are imported stand in front.
fn tag_at(program: &Module, index: u32) -> Option<Tag>
    ensures tag { result ≡ slice_get (tags_of program.now) index }
{
    let mut left = index as usize;
    for import in program.imports.as_slice() {
        if let ExternType::Tag(tag) = import.kind {
            if left == 0 {
                return Some(tag);
            }
            left -= 1;
        }
    }
    listed_tag(program.tags.as_slice(), left)
}

/// The type of the tag of this index (stack-switching explainer, types); `None` where there is no such tag, or its type is no function
/// type.
pub(crate) fn tag_type(program: &Module, index: u32) -> Option<&FuncType>
    ensures kind { option_copied result ≡ type_of_tag (context_of program.now) index }
{
    match tag_at(program, index) {
        Some(tag) => func_type(program, tag.type_index as usize),
        None => None,
    }
}

// The index of the type that a heap type names.
fn index_in(heap: HeapType) -> Option<u32>
    ensures index { result ≡ heap_index heap }
{
    match heap {
        HeapType::Index(index) => Some(index),
        HeapType::Func | HeapType::NoFunc | HeapType::Cont | HeapType::NoCont => None,
    }
}

// The index of the type that the last of these types refers to; `None` where there is none, or it is no reference to a type by its index.
fn last_index(types: &[PackedType]) -> Option<u32>
    ensures index { result ≡ back_type (row_of types.now) }
{
    let (top, _beneath) = types.split_last()?;
    match top.whole() {
        ValType::Ref(reference) => index_in(reference.heap),
        ValType::I32 | ValType::I64 => None,
    }
}

/// The function type of the continuation type that the last parameter of the continuation type of this index refers to (stack-switching
/// explainer, validation: switch); `None` where one of these types isn't there.
pub(crate) fn back_type(program: &Module, index: u32) -> Option<&FuncType>
    ensures kind { option_copied result ≡ back_of program.now index }
{
    let function = cont_type(program, index)?;
    let back = last_index(function.params.as_slice())?;
    cont_type(program, back)
}
