//! The functions of the host that imports name.
ghost use Rattle.std.specs.Prelude.{◌≡◌, IfOk};
ghost use Rattle.std.specs.Option.{option_copied};
ghost use Rattle.w_reduce.specs.Imports as imports;
ghost use Rattle.w_inst.specs.Imports.{found_of};

use std::alloc::{AllocError, Global};
use w_rules::func_type;
use w_syntax::{ExternType, Import, Module};
use w_tables::Printer;
use w_types::{FuncType, PackedType, ValType};

/// What the imports of a module come to: a function of the host for each of them, or the number of the first that names none.
#[derive(Drop)]
pub enum Imports {
    All(Vec<Printer>),
    Missing(usize),
}

// The host's function of this name.
fn printer_named(name: &str) -> Option<Printer>
    ensures { result ≡ imports.printer_named name.now }
{
    if name == "print_i32" {
        return Some(Printer::I32);
    }
    if name == "print_i64" {
        return Some(Printer::I64);
    }
    if name == "print_byte" {
        return Some(Printer::Byte);
    }
    None
}

// Whether the types are just one i32.
fn is_i32(types: &[PackedType]) -> bool
    ensures { result ≡ imports.is_i32 types.now }
{
    match types {
        [kind] => matches!(kind.whole(), ValType::I32),
        _ => false,
    }
}

// Whether the types are just one i64.
fn is_i64(types: &[PackedType]) -> bool
    ensures { result ≡ imports.is_i64 types.now }
{
    match types {
        [kind] => matches!(kind.whole(), ValType::I64),
        _ => false,
    }
}

// Whether a function of the host takes these types.
fn are_taken_by(printer: Printer, types: &[PackedType]) -> bool
    ensures { result ≡ imports.are_taken_by printer types.now }
{
    match printer {
        Printer::I32 | Printer::Byte => is_i32(types),
        Printer::I64 => is_i64(types),
    }
}

// Whether there are no types.
fn are_none(types: &[PackedType]) -> bool
    ensures { result ≡ imports.are_none types.now }
{
    types.is_empty()
}

// The function of the host, where its type is this one.
fn of_type(printer: Option<Printer>, kind: Option<&FuncType>) -> Option<Printer>
    ensures { result ≡ imports.of_type printer (option_copied kind.entry) }
{
    let printer = printer?;
    let kind = kind?;
    if are_taken_by(printer, kind.params.as_slice()) && are_none(kind.results.as_slice()) {
        Some(printer)
    } else {
        None
    }
}

// The function of the host of this name, where it is of the type that is imported.
fn printer_as(program: &Module, name: &str, kind: ExternType) -> Option<Printer>
    ensures { result ≡ imports.printer_as program.now name.now kind }
{
    match kind {
        ExternType::Func(index) => {
            of_type(printer_named(name), func_type(program, index as usize))
        }
        _ => None,
    }
}

/// The function of the host that an import names, where it names one of its type (Core, execution, instantiation).
pub fn printer_of(program: &Module, import: &Import) -> Option<Printer>
    ensures { result ≡ imports.printer_of program.now import.now }
{
    if import.module_name.as_str() == "host" {
        printer_as(program, import.item_name.as_str(), import.kind)
    } else {
        None
    }
}

/// The functions of the host that the imports of a module name, in order, or the number of the first import that names none (Core,
/// execution, instantiation). It fails only for want of memory.
pub fn find_printers(alloc: Global, program: &Module) -> Result<Imports, AllocError>
    ensures found { IfOk result (λ found. imports.printers_of program.now program.now.imports ≡ found_of found) }
{
    let mut printers = Vec::new(alloc);
    for import in program.imports.as_slice() {
        let Some(printer) = printer_of(program, import) else {
            return Ok(Imports::Missing(printers.len()));
        };
        printers.push(printer)?;
    }
    Ok(Imports::All(printers))
}
