//! Sections and modules.
ghost use Rattle.std.specs.Prelude.{◌≡◌, ◌++◌, ◌≤◌, ◌^◌, ℕ, List, length, OnOk, IfOk, Option};
ghost use Rattle.w_leb.specs.Number.{shortest};
ghost use Rattle.w_syntax.specs.Spells.{Spells};
ghost use Rattle.w_encode.specs.Canon.{code_written, list_section, number_section, data_count, Canon};

use crate::functions::put_codes;
use crate::put::{Put, put_bytes, put_count, put_vec};
use std::alloc::{AllocError, Global};
use w_syntax::{Func, Module, any_uses_data};

// Writes the section of a list, where that is not empty.
fn put_list<T: Put>(alloc: Global, id: u8, items: &[T], out: &mut Vec<u8>) -> Result<(), AllocError>
    ensures { OnOk result (out.new.items ≡ out.old.items ++ list_section id T.written items.now) }
{
    if items.is_empty() {
        return Ok(());
    }
    let mut contents = Vec::new(alloc);
    put_vec(items, &mut contents)?;
    out.push(id)?;
    put_bytes(contents.as_slice(), out)
}

// Writes the code section, where there are functions.
fn put_code_section(alloc: Global, funcs: &[Func], out: &mut Vec<u8>) -> Result<(), AllocError>
    ensures { OnOk result (out.new.items ≡ out.old.items ++ list_section 0x0A code_written funcs.now) }
{
    if funcs.is_empty() {
        return Ok(());
    }
    let mut contents = Vec::new(alloc);
    put_count(funcs.len(), &mut contents)?;
    put_codes(alloc, funcs, &mut contents)?;
    out.push(0x0A)?;
    put_bytes(contents.as_slice(), out)
}

// Writes the section of a number, where there is one.
fn put_number(
    alloc: Global,
    id: u8,
    number: Option<u64>,
    out: &mut Vec<u8>,
) -> Result<(), AllocError>
    ensures { OnOk result (out.new.items ≡ out.old.items ++ number_section id number) }
{
    let Some(number) = number else {
        return Ok(());
    };
    let mut contents = Vec::new(alloc);
    number.put(&mut contents)?;
    out.push(id)?;
    put_bytes(contents.as_slice(), out)
}

// The number of data segments, where some body names one.
fn data_count(program: &Module) -> Option<u64>
    ensures { result ≡ data_count program.now }
{
    if any_uses_data(program.codes.as_slice()) {
        Some(program.datas.len() as u64)
    } else {
        None
    }
}

fn start_of(program: &Module) -> Option<u64>
    ensures { result ≡ program.now.start }
{
    program.start.map(|function| function as u64)
}

fn canonical(alloc: Global, program: &Module) -> Result<Vec<u8>, AllocError>
    ensures { IfOk result (λ v. v.items ≡ Canon program.now) }
{
    let mut out = Vec::new(alloc);
    out.extend_from_slice(b"\0asm\x01\0\0\0")?;
    put_list(alloc, 0x01, program.types.as_slice(), &mut out)?;
    put_list(alloc, 0x02, program.imports.as_slice(), &mut out)?;
    put_list(alloc, 0x03, program.functions.as_slice(), &mut out)?;
    put_list(alloc, 0x04, program.tables.as_slice(), &mut out)?;
    put_list(alloc, 0x05, program.memories.as_slice(), &mut out)?;
    put_list(alloc, 0x0D, program.tags.as_slice(), &mut out)?;
    put_list(alloc, 0x06, program.globals.as_slice(), &mut out)?;
    put_list(alloc, 0x07, program.exports.as_slice(), &mut out)?;
    put_number(alloc, 0x08, start_of(program), &mut out)?;
    put_list(alloc, 0x09, program.elements.as_slice(), &mut out)?;
    put_number(alloc, 0x0C, data_count(program), &mut out)?;
    put_code_section(alloc, program.codes.as_slice(), &mut out)?;
    put_list(alloc, 0x0B, program.datas.as_slice(), &mut out)?;
    Ok(out)
}

/// The canonical spelling of a module (Core, binary format, modules). It fails only for want of memory.
pub fn encode(alloc: Global, program: &Module) -> Result<Vec<u8>, AllocError>
    ensures canonical { IfOk result (λ v. v.items ≡ Canon program.now) }
    ensures spelled { IfOk result (λ v. (b : List ℕ) → Spells b program.now → length b ≤ 2 ^ 30 → Spells v.items program.now) }
{
    canonical(alloc, program)
}
