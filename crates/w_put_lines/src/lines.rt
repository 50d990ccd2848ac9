//! Lines that are no instruction.
ghost use Rattle.std.specs.Prelude.{◌≡◌, ◌++◌, ◌∷◌, [], OnOk};
ghost use Rattle.w_words.specs.Numbers.{count_word};
ghost use Rattle.w_words.specs.Hexadecimal.{bytes_word};
ghost use Rattle.w_words.specs.Words.{behind_spaces, spaced};
ghost use Rattle.w_lines.specs.declared.line.Line.TheVariants as line;
ghost use Rattle.w_lines.specs.Spelling.{composite_words, below_words, mode_words, line_bytes};
ghost use Rattle.w_lines.specs.Written.{named_bytes};

use crate::named::{end_line, put_alone, put_index, put_spaced, put_spaced_text, put_word};
use crate::parts::{
    put_composite, put_extern, put_extern_index, put_func, put_global, put_limits, put_table,
};
use std::alloc::AllocError;
use w_lines::Mode;
use w_syntax::{Export, GlobalType, Import, Limits, LocalRun, TableType, Tag};
use w_types::{CompType, RefType, SubType};
use w_words::{put_bytes, put_count, put_each, put_text};

// Writes bytes behind a space.
fn put_spaced_bytes(bytes: &[u8], out: &mut Vec<u8>) -> Result<(), AllocError>
    ensures { OnOk result (out.new.items ≡ out.old.items ++ behind_spaces (bytes_word bytes.now ∷ [])) }
{
    out.push(b' ')?;
    put_bytes(bytes, out)
}

// Writes a count behind a space.
fn put_spaced_count(count: usize, out: &mut Vec<u8>) -> Result<(), AllocError>
    ensures { OnOk result (out.new.items ≡ out.old.items ++ behind_spaces (count_word count ∷ [])) }
{
    out.push(b' ')?;
    put_count(count, out)
}

/// Writes `module`.
pub fn put_module_line(out: &mut Vec<u8>) -> Result<(), AllocError>
    ensures { OnOk result (out.new.items ≡ out.old.items ++ line_bytes line.Module) }
{
    put_alone("module", out)
}

/// Writes the line in front of a group of so many types.
pub fn put_group_line(count: usize, out: &mut Vec<u8>) -> Result<(), AllocError>
    ensures { OnOk result (out.new.items ≡ out.old.items ++ line_bytes (line.Group count)) }
{
    put_text("rec", out)?;
    put_spaced_count(count, out)?;
    end_line(out)
}

// Writes the line of a composite type that stands alone.
fn put_composite_line(composite: &CompType, out: &mut Vec<u8>) -> Result<(), AllocError>
    ensures { OnOk result (out.new.items ≡ out.old.items ++ (spaced (composite_words composite.now) ++ 10 ∷ [])) }
{
    match composite {
        CompType::Func(kind) => {
            put_text("func", out)?;
            put_func(kind, out)?;
            end_line(out)
        }
        CompType::Cont(kind) => put_word("cont", kind, out),
    }
}

// Writes the line of a type with its supertypes.
fn put_below_line(name: &str, kind: &SubType, out: &mut Vec<u8>) -> Result<(), AllocError>
    ensures { OnOk result (out.new.items ≡ out.old.items ++ named_bytes name.now (below_words kind.now.supertypes kind.now.composite)) }
{
    put_text(name, out)?;
    put_each(kind.supertypes.as_slice(), out)?;
    put_spaced_text(":", out)?;
    put_composite(&kind.composite, out)?;
    end_line(out)
}

/// Writes the line of a type.
pub fn put_type_line(kind: &SubType, out: &mut Vec<u8>) -> Result<(), AllocError>
    ensures { OnOk result (out.new.items ≡ out.old.items ++ line_bytes (line.Type kind.now)) }
{
    if !kind.is_final {
        return put_below_line("open", kind, out);
    }
    if kind.supertypes.len() == 0 {
        return put_composite_line(&kind.composite, out);
    }
    put_below_line("final", kind, out)
}

/// Writes the line of an import.
pub fn put_import_line(import: &Import, out: &mut Vec<u8>) -> Result<(), AllocError>
    ensures { OnOk result (out.new.items ≡ out.old.items ++ line_bytes (line.Import import.now)) }
{
    put_text("import", out)?;
    put_spaced_bytes(import.module_name.as_str().as_bytes(), out)?;
    put_spaced_bytes(import.item_name.as_str().as_bytes(), out)?;
    put_extern(import.kind, out)?;
    end_line(out)
}

/// Writes the line of a table, and whether lines follow that say what its elements begin with.
pub fn put_table_line(kind: TableType, has_init: bool, out: &mut Vec<u8>) -> Result<(), AllocError>
    ensures { OnOk result (out.new.items ≡ out.old.items ++ line_bytes (line.Table kind has_init)) }
{
    put_text("table", out)?;
    put_table(kind, out)?;
    if has_init {
        put_spaced_text("init", out)?;
    }
    end_line(out)
}

/// Writes the line of a memory.
pub fn put_memory_line(limits: Limits, out: &mut Vec<u8>) -> Result<(), AllocError>
    ensures { OnOk result (out.new.items ≡ out.old.items ++ line_bytes (line.Memory limits)) }
{
    put_text("memory", out)?;
    put_limits(limits, out)?;
    end_line(out)
}

/// Writes the line of a tag.
pub fn put_tag_line(tag: Tag, out: &mut Vec<u8>) -> Result<(), AllocError>
    ensures { OnOk result (out.new.items ≡ out.old.items ++ line_bytes (line.Tag tag)) }
{
    put_index("tag", tag.type_index, out)
}

/// Writes the line of a global.
pub fn put_global_line(kind: GlobalType, out: &mut Vec<u8>) -> Result<(), AllocError>
    ensures { OnOk result (out.new.items ≡ out.old.items ++ line_bytes (line.Global kind)) }
{
    put_text("global", out)?;
    put_global(kind, out)?;
    end_line(out)
}

/// Writes the line of an export.
pub fn put_export_line(export: &Export, out: &mut Vec<u8>) -> Result<(), AllocError>
    ensures { OnOk result (out.new.items ≡ out.old.items ++ line_bytes (line.Export export.now)) }
{
    put_text("export", out)?;
    put_spaced_bytes(export.name.as_str().as_bytes(), out)?;
    put_extern_index(export.index, out)?;
    end_line(out)
}

/// Writes the line of the function that runs first.
pub fn put_start_line(function: u32, out: &mut Vec<u8>) -> Result<(), AllocError>
    ensures { OnOk result (out.new.items ≡ out.old.items ++ line_bytes (line.Start function)) }
{
    put_index("start", function, out)
}

// Writes when the items of an element segment are copied.
fn put_mode(mode: Mode, out: &mut Vec<u8>) -> Result<(), AllocError>
    ensures { OnOk result (out.new.items ≡ out.old.items ++ behind_spaces (mode_words mode)) }
{
    match mode {
        Mode::Active(table) => {
            put_spaced_text("active", out)?;
            put_spaced(&table, out)
        }
        Mode::Passive => put_spaced_text("passive", out),
        Mode::Declarative => put_spaced_text("declare", out),
    }
}

/// Writes the line of an element segment of so many items.
pub fn put_elements_line(
    mode: Mode,
    kind: RefType,
    count: usize,
    out: &mut Vec<u8>,
) -> Result<(), AllocError>
    ensures { OnOk result (out.new.items ≡ out.old.items ++ line_bytes (line.Elements mode kind count)) }
{
    put_text("elem", out)?;
    put_mode(mode, out)?;
    put_spaced(&kind, out)?;
    put_spaced_count(count, out)?;
    end_line(out)
}

/// Writes the line of a data segment, with its memory where it is active.
pub fn put_data_line(memory: Option<u32>, bytes: &[u8], out: &mut Vec<u8>) -> Result<(), AllocError>
    ensures { OnOk result (out.new.items ≡ out.old.items ++ line_bytes (line.Data memory bytes.now)) }
{
    put_text("data", out)?;
    match memory {
        Some(memory) => {
            put_spaced_text("active", out)?;
            put_spaced(&memory, out)?;
        }
        None => put_spaced_text("passive", out)?,
    }
    put_spaced_bytes(bytes, out)?;
    end_line(out)
}

/// Writes the line of a function, by the index of its type.
pub fn put_function_line(kind: u32, out: &mut Vec<u8>) -> Result<(), AllocError>
    ensures { OnOk result (out.new.items ≡ out.old.items ++ line_bytes (line.Function kind)) }
{
    put_index("function", kind, out)
}

/// Writes the line of some locals.
pub fn put_local_line(run: LocalRun, out: &mut Vec<u8>) -> Result<(), AllocError>
    ensures { OnOk result (out.new.items ≡ out.old.items ++ line_bytes (line.Local run)) }
{
    put_text("local", out)?;
    put_spaced(&run.count, out)?;
    put_spaced(&run.kind, out)?;
    end_line(out)
}
