//! What sections say (Core, binary format, sections).
ghost use Rattle.std.specs.Prelude.{◌≡◌, ◌↔◌, IfOk, IsTrue, IsSome};
ghost use Rattle.w_syntax.specs.Fields.{name};
ghost use Rattle.w_syntax.specs.Contents.{custom_of};
ghost use Rattle.w_syntax.specs.Sections.{section_of};
ghost use Rattle.w_decode.specs.Reading.{with_section};

use std::alloc::{AllocError, Global};
use w_code::{DataField, ElemField, FuncField, GlobalField, TableField};
use w_fields::{IndexField, LimitsField, has_name, list_of, whole_of};
use w_sections::{ExportField, ImportField, RecGroupsField, TagField};
use w_syntax::{Module, Section};

/// The module that the sections so far make, and the data count, where one was there.
#[derive(Drop)]
pub(crate) struct PartialModule {
    pub tree: Module,
    pub data_count: Option<u32>,
}

// A custom section, which is dropped.
fn custom(contents: &[u8]) -> Option<Section>
    ensures { result ≡ custom_of (name.read contents.now) }
{
    if has_name(contents) {
        Some(Section::Custom)
    } else {
        None
    }
}

/// What a section says.
#[tactic(auto, unfolding(w_syntax::specs::Sections::section_of))]
pub(crate) fn section_at(
    alloc: Global,
    id: u8,
    contents: &[u8],
) -> Result<Option<Section>, AllocError>
    ensures { IfOk result (λ o. o ≡ section_of (id, contents.now)) }
{
    match id {
        0x00 => Ok(custom(contents)),
        0x01 => Ok(whole_of::<RecGroupsField>(alloc, contents)?.map(Section::Types)),
        0x02 => Ok(list_of::<ImportField>(alloc, contents)?.map(Section::Imports)),
        0x03 => Ok(list_of::<IndexField>(alloc, contents)?.map(Section::Functions)),
        0x04 => Ok(list_of::<TableField>(alloc, contents)?.map(Section::Tables)),
        0x05 => Ok(list_of::<LimitsField>(alloc, contents)?.map(Section::Memories)),
        0x0D => Ok(list_of::<TagField>(alloc, contents)?.map(Section::Tags)),
        0x06 => Ok(list_of::<GlobalField>(alloc, contents)?.map(Section::Globals)),
        0x07 => Ok(list_of::<ExportField>(alloc, contents)?.map(Section::Exports)),
        0x08 => Ok(whole_of::<IndexField>(alloc, contents)?.map(Section::Start)),
        0x09 => Ok(list_of::<ElemField>(alloc, contents)?.map(Section::Elements)),
        0x0C => Ok(whole_of::<IndexField>(alloc, contents)?.map(Section::DataCount)),
        0x0A => Ok(list_of::<FuncField>(alloc, contents)?.map(Section::Codes)),
        0x0B => Ok(list_of::<DataField>(alloc, contents)?.map(Section::Datas)),
        _ => Ok(None),
    }
}

/// The module with what a section says.
pub(crate) fn add_section(so_far: &mut PartialModule, part: Section)
    ensures { so_far.new ≡ with_section part so_far.old }
{
    match part {
        Section::Custom => {}
        Section::Types(types) => so_far.tree.types = types,
        Section::Imports(imports) => so_far.tree.imports = imports,
        Section::Functions(functions) => so_far.tree.functions = functions,
        Section::Tables(tables) => so_far.tree.tables = tables,
        Section::Memories(memories) => so_far.tree.memories = memories,
        Section::Tags(tags) => so_far.tree.tags = tags,
        Section::Globals(globals) => so_far.tree.globals = globals,
        Section::Exports(exports) => so_far.tree.exports = exports,
        Section::Start(function) => so_far.tree.start = Some(function),
        Section::Elements(elements) => so_far.tree.elements = elements,
        Section::DataCount(count) => so_far.data_count = Some(count),
        Section::Codes(codes) => so_far.tree.codes = codes,
        Section::Datas(datas) => so_far.tree.datas = datas,
    }
}
