//! Lines.
ghost use Rattle.std.specs.Prelude.{◌≡◌, ◌∷◌, None, IfOk, option_map};
ghost use Rattle.w_lines.specs.Instructions.{rows, row_in};
ghost use Rattle.w_lines.specs.Spelling.{module_line, group_line, func_line, cont_line, final_line, open_line, import_line, table_line, memory_line, tag_line, global_line, export_line, start_line, items_line, elements_line, data_line, function_line, local_line, init_of, line_in, line_of};
ghost use Rattle.w_lines.specs.Kept.{kept};

use crate::instructions::token_of;
use crate::line::{Line, Mode};
use crate::names::row_of;
use crate::parts::{below_of, extern_of, func_of, global_of, index_of, limits_of, table_in};
use std::alloc::{AllocError, Global};
use w_syntax::{Export, Import, LocalRun, Tag};
use w_types::{CompType, PackedType, RefType, SubType};
use w_words::{ReadWord, Words, bytes_of, count_of, is, name_of, read_one, read_two};

// `module`.
fn module_line(words: &mut Words) -> Option<Line>
    ensures { result ≡ option_map kept (module_line words.old) }
{
    match words.next() {
        Some(_) => None,
        None => Some(Line::Module),
    }
}

// `rec`.
fn group_line(words: &mut Words) -> Option<Line>
    ensures { result ≡ option_map kept (group_line words.old) }
{
    let count = count_of(words.only()?)?;
    Some(Line::Group(count))
}

// A function type.
fn func_line(alloc: Global, words: &mut Words) -> Result<Option<Line>, AllocError>
    ensures { IfOk result (λ line. line ≡ option_map kept (func_line words.old)) }
{
    let Some(kind) = func_of(alloc, words)? else {
        return Ok(None);
    };
    let kind = SubType::alone(alloc, CompType::Func(kind));
    Ok(Some(Line::Type(kind)))
}

// A continuation type.
fn cont_line(alloc: Global, words: &mut Words) -> Option<Line>
    ensures { result ≡ option_map kept (cont_line words.old) }
{
    let kind = read_one(words)?;
    let kind = SubType::alone(alloc, CompType::Cont(kind));
    Some(Line::Type(kind))
}

// A final type with supertypes.
fn final_line(alloc: Global, words: &mut Words) -> Result<Option<Line>, AllocError>
    ensures { IfOk result (λ line. line ≡ option_map kept (final_line words.old)) }
{
    let Some((supertypes, composite)) = below_of(alloc, words)? else {
        return Ok(None);
    };
    if supertypes.len() == 0 {
        return Ok(None);
    }
    Ok(Some(Line::Type(SubType {
        is_final: true,
        supertypes,
        composite,
    })))
}

// A type that may be a supertype.
fn open_line(alloc: Global, words: &mut Words) -> Result<Option<Line>, AllocError>
    ensures { IfOk result (λ line. line ≡ option_map kept (open_line words.old)) }
{
    let Some((supertypes, composite)) = below_of(alloc, words)? else {
        return Ok(None);
    };
    Ok(Some(Line::Type(SubType {
        is_final: false,
        supertypes,
        composite,
    })))
}

// `import`.
fn import_line(alloc: Global, words: &mut Words) -> Result<Option<Line>, AllocError>
    ensures { IfOk result (λ line. line ≡ option_map kept (import_line words.old)) }
{
    let Some(word) = words.next() else {
        return Ok(None);
    };
    let Some(module_name) = name_of(alloc, word)? else {
        return Ok(None);
    };
    let Some(word) = words.next() else {
        return Ok(None);
    };
    let Some(item_name) = name_of(alloc, word)? else {
        return Ok(None);
    };
    let Some(kind) = extern_of(words) else {
        return Ok(None);
    };
    Ok(Some(Line::Import(Import {
        module_name,
        item_name,
        kind,
    })))
}

// Whether lines follow that say what a table's elements begin with.
fn init_of(words: &mut Words) -> Option<bool>
    ensures { result ≡ init_of words.old }
{
    let Some(word) = words.next() else {
        return Some(false);
    };
    if words.next().is_some() || !is(word, "init") {
        return None;
    }
    Some(true)
}

// `table`.
fn table_line(words: &mut Words) -> Option<Line>
    ensures { result ≡ option_map kept (table_line words.old) }
{
    let kind = table_in(words)?;
    let has_init = init_of(words)?;
    Some(Line::Table(kind, has_init))
}

// `memory`.
fn memory_line(words: &mut Words) -> Option<Line>
    ensures { result ≡ option_map kept (memory_line words.old) }
{
    let limits = limits_of(words)?;
    Some(Line::Memory(limits))
}

// `tag`.
fn tag_line(words: &mut Words) -> Option<Line>
    ensures { result ≡ option_map kept (tag_line words.old) }
{
    let type_index = read_one(words)?;
    Some(Line::Tag(Tag { type_index }))
}

// `start`.
fn start_line(words: &mut Words) -> Option<Line>
    ensures { result ≡ option_map kept (start_line words.old) }
{
    let function = read_one(words)?;
    Some(Line::Start(function))
}

// `function`.
fn function_line(words: &mut Words) -> Option<Line>
    ensures { result ≡ option_map kept (function_line words.old) }
{
    let kind = read_one(words)?;
    Some(Line::Function(kind))
}

// `global`.
fn global_line(words: &mut Words) -> Option<Line>
    ensures { result ≡ option_map kept (global_line words.old) }
{
    let kind = global_of(words)?;
    Some(Line::Global(kind))
}

// `export`.
fn export_line(alloc: Global, words: &mut Words) -> Result<Option<Line>, AllocError>
    ensures { IfOk result (λ line. line ≡ option_map kept (export_line words.old)) }
{
    let Some(word) = words.next() else {
        return Ok(None);
    };
    let Some(name) = name_of(alloc, word)? else {
        return Ok(None);
    };
    let Some(index) = index_of(words) else {
        return Ok(None);
    };
    Ok(Some(Line::Export(Export { name, index })))
}

// An element segment behind its mode.
fn items_line(mode: Mode, words: &mut Words) -> Option<Line>
    ensures { result ≡ option_map kept (items_line mode words.old) }
{
    let (kind, count) = words.pair()?;
    let kind = RefType::read(kind)?;
    let count = count_of(count)?;
    Some(Line::Elements(mode, kind, count))
}

// `elem`.
fn elements_line(words: &mut Words) -> Option<Line>
    ensures { result ≡ option_map kept (elements_line words.old) }
{
    let word = words.next()?;
    if is(word, "active") {
        let table = u32::read(words.next()?)?;
        return items_line(Mode::Active(table), words);
    }
    if is(word, "passive") {
        return items_line(Mode::Passive, words);
    }
    if is(word, "declare") {
        return items_line(Mode::Declarative, words);
    }
    None
}

// `data`.
fn data_line(alloc: Global, words: &mut Words) -> Result<Option<Line>, AllocError>
    ensures { IfOk result (λ line. line ≡ option_map kept (data_line words.old)) }
{
    let Some(word) = words.next() else {
        return Ok(None);
    };
    if is(word, "active") {
        let Some((memory, word)) = words.pair() else {
            return Ok(None);
        };
        let Some(memory) = u32::read(memory) else {
            return Ok(None);
        };
        let Some(bytes) = bytes_of(alloc, word)? else {
            return Ok(None);
        };
        return Ok(Some(Line::Data(Some(memory), bytes)));
    }
    if is(word, "passive") {
        let Some(word) = words.only() else {
            return Ok(None);
        };
        let Some(bytes) = bytes_of(alloc, word)? else {
            return Ok(None);
        };
        return Ok(Some(Line::Data(None, bytes)));
    }
    Ok(None)
}

// `local`.
fn local_line(words: &mut Words) -> Option<Line>
    ensures { result ≡ option_map kept (local_line words.old) }
{
    let (count, kind): (u32, PackedType) = read_two(words)?;
    Some(Line::Local(LocalRun { count, kind }))
}

// A line that is no instruction, by its first word.
fn line_by_kind(alloc: Global, name: &[u8], words: &mut Words) -> Result<Option<Line>, AllocError>
    ensures { IfOk result (λ line. row_in rows name.now ≡ None → line ≡ option_map kept (line_in (name.now ∷ words.old))) }
{
    if is(name, "module") {
        return Ok(module_line(words));
    }
    if is(name, "rec") {
        return Ok(group_line(words));
    }
    if is(name, "func") {
        return func_line(alloc, words);
    }
    if is(name, "cont") {
        return Ok(cont_line(alloc, words));
    }
    if is(name, "final") {
        return final_line(alloc, words);
    }
    if is(name, "open") {
        return open_line(alloc, words);
    }
    if is(name, "import") {
        return import_line(alloc, words);
    }
    if is(name, "table") {
        return Ok(table_line(words));
    }
    if is(name, "memory") {
        return Ok(memory_line(words));
    }
    if is(name, "tag") {
        return Ok(tag_line(words));
    }
    if is(name, "global") {
        return Ok(global_line(words));
    }
    if is(name, "export") {
        return export_line(alloc, words);
    }
    if is(name, "start") {
        return Ok(start_line(words));
    }
    if is(name, "elem") {
        return Ok(elements_line(words));
    }
    if is(name, "data") {
        return data_line(alloc, words);
    }
    if is(name, "function") {
        return Ok(function_line(words));
    }
    if is(name, "local") {
        return Ok(local_line(words));
    }
    Ok(None)
}

/// What a line says, without its line feed. Counts of 2^64 and more are all one. `None` exactly where no line is spelled so. It fails
/// only for want of memory.
pub fn line_of(alloc: Global, line: &[u8]) -> Result<Option<Line>, AllocError>
    ensures { IfOk result (λ said. said ≡ option_map kept (line_of line.now)) }
{
    let mut words = Words::of_line(line);
    let Some(name) = words.next() else {
        return Ok(None);
    };
    let Some(row) = row_of(name) else {
        return line_by_kind(alloc, name, &mut words);
    };
    match token_of(alloc, row, &mut words)? {
        Some(token) => Ok(Some(Line::Token(token))),
        None => Ok(None),
    }
}
