//! The text of a module.
ghost use Rattle.std.specs.Prelude.{◌≡◌, ◌++◌, IfOk, OnOk, drop, length};
ghost use Rattle.std.specs.List.{flat_map};
ghost use Rattle.w_lines.specs.Spelling.{LineFits};
ghost use Rattle.w_words.specs.Words.{Each};
ghost use Rattle.w_text.specs.Items.{start_items, function_items, module_lines};
ghost use Rattle.w_text.specs.Parts.{PartsFit};
ghost use Rattle.w_text.specs.Text.{Text, text_of};
ghost use Rattle.w_text.specs.Written.{item_bytes};

use crate::putting::{put_function, put_items};
use std::alloc::{AllocError, Global};
use w_put_lines::{put_module_line, put_start_line};
use w_syntax::{Func, Module};

// Writes the line of the function that runs first, where there is one.
fn put_start(start: Option<u32>, out: &mut Vec<u8>) -> Result<(), AllocError>
    ensures { OnOk result (out.new.items ≡ out.old.items ++ flat_map item_bytes (start_items start)) }
{
    match start {
        Some(function) => put_start_line(function, out),
        None => Ok(()),
    }
}

// Writes the lines of functions: their types, and their codes.
fn put_functions(kinds: &[u32], codes: &[Func], out: &mut Vec<u8>) -> Result<(), AllocError>
    ensures { OnOk result (out.new.items ≡ out.old.items ++ flat_map item_bytes (function_items kinds.now codes.now)) }
{
    let mut place = 0;
    while place < kinds.len() && place < codes.len() {
        put_function(kinds[place], &codes[place], out)?;
        place += 1;
    }
    Ok(())
}

// Writes the lines of a module.
fn put_module(program: &Module, out: &mut Vec<u8>) -> Result<(), AllocError>
    ensures { OnOk result (out.new.items ≡ out.old.items ++ text_of program.now) }
{
    put_module_line(out)?;
    put_items(program.types.as_slice(), out)?;
    put_items(program.imports.as_slice(), out)?;
    put_items(program.tables.as_slice(), out)?;
    put_items(program.memories.as_slice(), out)?;
    put_items(program.tags.as_slice(), out)?;
    put_items(program.globals.as_slice(), out)?;
    put_items(program.exports.as_slice(), out)?;
    put_start(program.start, out)?;
    put_items(program.elements.as_slice(), out)?;
    put_items(program.datas.as_slice(), out)?;
    put_functions(program.functions.as_slice(), program.codes.as_slice(), out)
}

/// The text of a module. It fails only for want of memory.
pub fn dump(alloc: Global, program: &Module) -> Result<Vec<u8>, AllocError>
    ensures text { IfOk result (λ v. v.items ≡ text_of program.now) }
    ensures says { IfOk result (λ v. PartsFit program.now → Each LineFits (module_lines program.now) → Text v.items program.now) }
{
    let mut out = Vec::new(alloc);
    put_module(program, &mut out)?;
    Ok(out)
}
