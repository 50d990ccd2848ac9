//! Exports (Core, binary format, export section).
ghost use Rattle.w_leb.specs.Format.{ReadsAt, BeginsAt};
ghost use Rattle.w_syntax.specs.Fields.{externidx, export};

use std::alloc::{AllocError, Global};
use w_fields::{Field, name_at};
use w_leb::{read_byte, read_u32};
use w_syntax::{Export, ExternIndex};

// Reads what is exported.
#[tactic(auto, unfolding(w_syntax::specs::Fields::externidx))]
fn read_externidx(bytes: &[u8], at: usize) -> Option<(ExternIndex, usize)>
    ensures { ReadsAt externidx.read bytes.now at result }
{
    let Some((kind, next)) = read_byte(bytes, at) else {
        return None;
    };
    if kind > 0x04 {
        return None;
    }
    let Some((index, next)) = read_u32(bytes, next) else {
        return None;
    };
    let what = match kind {
        0x00 => ExternIndex::Func(index),
        0x01 => ExternIndex::Table(index),
        0x02 => ExternIndex::Memory(index),
        0x03 => ExternIndex::Global(index),
        _ => ExternIndex::Tag(index),
    };
    Some((what, next))
}

/// What is exported, at a place. `None` exactly where no spelling of one begins.
#[tactic(auto, using(w_leb::specs::ReadingLaws::begins_at))]
pub fn externidx_at(bytes: &[u8], at: usize) -> Option<(ExternIndex, usize)>
    ensures reads { ReadsAt externidx.read bytes.now at result }
    ensures begins { BeginsAt externidx.Spells bytes.now at result }
{
    read_externidx(bytes, at)
}

/// An export, as a kind of field.
pub struct ExportField;

impl Field for ExportField {
    type Item = Export;

    ghost format = { export };

    #[tactic(auto, unfolding(w_syntax::specs::Fields::export))]
    fn read(alloc: Global, bytes: &[u8], at: usize) -> Result<Option<(Export, usize)>, AllocError> {
        let Some((name, next)) = name_at(alloc, bytes, at)? else {
            return Ok(None);
        };
        let Some((index, next)) = externidx_at(bytes, next) else {
            return Ok(None);
        };
        Ok(Some((Export { name, index }, next)))
    }
}
