//! Tags (Core, binary format, tag section).
ghost use Rattle.w_leb.specs.Format.{ReadsAt, BeginsAt};
ghost use Rattle.w_syntax.specs.Fields.{tag};

use std::alloc::{AllocError, Global};
use w_fields::Field;
use w_leb::{read_byte, read_u32};
use w_syntax::Tag;

// Reads a tag.
#[tactic(auto, unfolding(w_syntax::specs::Fields::tag))]
fn read_tag(bytes: &[u8], at: usize) -> Option<(Tag, usize)>
    ensures { ReadsAt tag.read bytes.now at result }
{
    let Some((attribute, next)) = read_byte(bytes, at) else {
        return None;
    };
    if attribute != 0x00 {
        return None;
    }
    let Some((type_index, next)) = read_u32(bytes, next) else {
        return None;
    };
    Some((Tag { type_index }, next))
}

/// The tag at a place. `None` exactly where no spelling of one begins.
#[tactic(auto, using(w_leb::specs::ReadingLaws::begins_at))]
pub fn tag_at(bytes: &[u8], at: usize) -> Option<(Tag, usize)>
    ensures reads { ReadsAt tag.read bytes.now at result }
    ensures begins { BeginsAt tag.Spells bytes.now at result }
{
    read_tag(bytes, at)
}

/// A tag, as a kind of field.
pub struct TagField;

impl Field for TagField {
    type Item = Tag;

    ghost format = { tag };

    fn read(_alloc: Global, bytes: &[u8], at: usize) -> Result<Option<(Tag, usize)>, AllocError> {
        Ok(tag_at(bytes, at))
    }
}
