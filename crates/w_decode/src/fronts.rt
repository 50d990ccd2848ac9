//! What stands at the front of bytes that come in pieces, where a section is due.
ghost use Rattle.std.specs.Prelude.{IfSome};
ghost use Rattle.w_decode.specs.Pieces.{IsFront, IsCustom};

use crate::frames::{Frame, frame_at, next_rank};
use w_fields::{has_name, sized_at};
use w_leb::{read_byte, read_u32};

/// A code section at the front.
pub(crate) struct CodeFront {
    // the rank that it leaves
    pub rank: u8,
    // how many bytes its contents have
    pub size: usize,
    // where they begin
    pub start: usize,
}

/// A custom section at the front, of whose name the bytes are all there.
pub(crate) struct CustomFront {
    // whether the name is UTF-8, so that the contents say something
    pub named: bool,
    // how many bytes of the section are to come behind those that are there
    pub left: usize,
    // where those that are there end
    pub end: usize,
}

/// What stands at the front of bytes, where a section is due.
pub(crate) enum Front {
    /// No whole section.
    Short,
    /// No section, whatever follows.
    Bad,
    /// A whole section.
    Whole(Frame),
    /// A code section, whole or in part.
    Code(CodeFront),
    /// A custom section, whole or in part.
    Custom(CustomFront),
}

// The custom section at the front, where the bytes of its name are all there. It is opened then even if they are not UTF-8, so that they
// are looked at once, and not again for each piece.
fn custom_at(bytes: &[u8]) -> Option<CustomFront>
    ensures { IfSome result (λ c. IsCustom bytes.now c.left c.end c.named) }
{
    let (id, next) = read_byte(bytes, 0)?;
    if id != 0x00 {
        return None;
    }
    let (size, start) = read_u32(bytes, next)?;
    let size = size as usize;
    let there = (bytes.len() - start).min(size);
    let end = start + there;
    let contents = &bytes[start..end];
    let _name = sized_at(contents, 0)?;
    Some(CustomFront {
        named: has_name(contents),
        left: size - there,
        end,
    })
}

/// What stands at the front of bytes, where a section is due that comes after the rank `last`.
pub(crate) fn front_at(bytes: &[u8], last: u8) -> Front
    ensures { IsFront bytes.now last result }
{
    let Some((id, next)) = read_byte(bytes, 0) else {
        return Front::Short;
    };
    let Some(rank) = next_rank(last, id) else {
        return Front::Bad;
    };
    if id == 0x0A {
        let Some((size, start)) = read_u32(bytes, next) else {
            return Front::Short;
        };
        return Front::Code(CodeFront {
            rank,
            size: size as usize,
            start,
        });
    }
    if let Some(custom) = custom_at(bytes) {
        return Front::Custom(custom);
    }
    match frame_at(bytes, 0, last) {
        Some(frame) => Front::Whole(frame),
        None => Front::Short,
    }
}
