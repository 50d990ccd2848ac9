//! Parts of lines: limits, and the types of what modules define.
ghost use Rattle.std.specs.Prelude.{◌≡◌, ◌++◌, ◌∷◌, [], OnOk};
ghost use Rattle.w_words.specs.Words.{behind_spaces};
ghost use Rattle.w_lines.specs.Spelling.{max_word, mutability_word, limits_words, table_words, global_words, func_words, composite_words, extern_words, index_words};

use crate::named::{put_spaced, put_spaced_number, put_spaced_text};
use std::alloc::AllocError;
use w_syntax::{ExternIndex, ExternType, GlobalType, Limits, Mutability, TableType};
use w_types::{CompType, FuncType};
use w_words::put_each;

// Writes a greatest size.
fn put_max(max: Option<u64>, out: &mut Vec<u8>) -> Result<(), AllocError>
    ensures { OnOk result (out.new.items ≡ out.old.items ++ behind_spaces (max_word max ∷ [])) }
{
    match max {
        Some(max) => put_spaced_number(max, out),
        None => put_spaced_text("-", out),
    }
}

// Writes whether a global may be written.
fn put_mutability(mutability: Mutability, out: &mut Vec<u8>) -> Result<(), AllocError>
    ensures { OnOk result (out.new.items ≡ out.old.items ++ behind_spaces (mutability_word mutability ∷ [])) }
{
    match mutability {
        Mutability::Const => put_spaced_text("const", out),
        Mutability::Var => put_spaced_text("var", out),
    }
}

/// Writes limits.
pub(crate) fn put_limits(limits: Limits, out: &mut Vec<u8>) -> Result<(), AllocError>
    ensures { OnOk result (out.new.items ≡ out.old.items ++ behind_spaces (limits_words limits)) }
{
    put_spaced_number(limits.min, out)?;
    put_max(limits.max, out)
}

/// Writes the type of a table.
pub(crate) fn put_table(kind: TableType, out: &mut Vec<u8>) -> Result<(), AllocError>
    ensures { OnOk result (out.new.items ≡ out.old.items ++ behind_spaces (table_words kind)) }
{
    put_spaced(&kind.element, out)?;
    put_limits(kind.limits, out)
}

/// Writes the type of a global.
pub(crate) fn put_global(kind: GlobalType, out: &mut Vec<u8>) -> Result<(), AllocError>
    ensures { OnOk result (out.new.items ≡ out.old.items ++ behind_spaces (global_words kind)) }
{
    put_spaced(&kind.kind, out)?;
    put_mutability(kind.mutability, out)
}

/// Writes the type of what is imported.
pub(crate) fn put_extern(kind: ExternType, out: &mut Vec<u8>) -> Result<(), AllocError>
    ensures { OnOk result (out.new.items ≡ out.old.items ++ behind_spaces (extern_words kind)) }
{
    match kind {
        ExternType::Func(kind) => {
            put_spaced_text("func", out)?;
            put_spaced(&kind, out)
        }
        ExternType::Table(kind) => {
            put_spaced_text("table", out)?;
            put_table(kind, out)
        }
        ExternType::Memory(limits) => {
            put_spaced_text("memory", out)?;
            put_limits(limits, out)
        }
        ExternType::Global(kind) => {
            put_spaced_text("global", out)?;
            put_global(kind, out)
        }
        ExternType::Tag(tag) => {
            put_spaced_text("tag", out)?;
            put_spaced(&tag.type_index, out)
        }
    }
}

/// Writes what is exported.
pub(crate) fn put_extern_index(index: ExternIndex, out: &mut Vec<u8>) -> Result<(), AllocError>
    ensures { OnOk result (out.new.items ≡ out.old.items ++ behind_spaces (index_words index)) }
{
    let (kind, index) = match index {
        ExternIndex::Func(function) => ("func", function),
        ExternIndex::Table(table) => ("table", table),
        ExternIndex::Memory(memory) => ("memory", memory),
        ExternIndex::Global(global) => ("global", global),
        ExternIndex::Tag(tag) => ("tag", tag),
    };
    put_spaced_text(kind, out)?;
    put_spaced(&index, out)
}

/// Writes parameters and results.
pub(crate) fn put_func(kind: &FuncType, out: &mut Vec<u8>) -> Result<(), AllocError>
    ensures { OnOk result (out.new.items ≡ out.old.items ++ behind_spaces (func_words kind.now)) }
{
    put_each(kind.params.as_slice(), out)?;
    put_spaced_text("->", out)?;
    put_each(kind.results.as_slice(), out)
}

/// Writes a composite type, each word behind a space.
pub(crate) fn put_composite(composite: &CompType, out: &mut Vec<u8>) -> Result<(), AllocError>
    ensures { OnOk result (out.new.items ≡ out.old.items ++ behind_spaces (composite_words composite.now)) }
{
    match composite {
        CompType::Func(kind) => {
            put_spaced_text("func", out)?;
            put_func(kind, out)
        }
        CompType::Cont(kind) => {
            put_spaced_text("cont", out)?;
            put_spaced(kind, out)
        }
    }
}
