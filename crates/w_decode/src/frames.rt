//! Frames of sections (Core, binary format, sections).
ghost use Rattle.std.specs.Prelude.{◌≡◌};
ghost use Rattle.w_syntax.specs.Sections.{rank as rank_of, next_rank as rank_next};
ghost use Rattle.w_decode.specs.Places.{FrameAt};

use w_fields::sized_at;
use w_leb::read_byte;

/// A section by its places: where its id stands among the others, the id, and where its contents begin and end.
pub(crate) struct Frame {
    pub rank: u8,
    pub id: u8,
    pub start: usize,
    pub end: usize,
}

// Where the section of an id stands among the others.
#[tactic(auto, unfolding(w_syntax::specs::Sections::rank))]
fn rank(id: u8) -> Option<u8>
    ensures { result ≡ rank_of id }
{
    match id {
        0x01 => Some(1),
        0x02 => Some(2),
        0x03 => Some(3),
        0x04 => Some(4),
        0x05 => Some(5),
        0x0D => Some(6),
        0x06 => Some(7),
        0x07 => Some(8),
        0x08 => Some(9),
        0x09 => Some(10),
        0x0C => Some(11),
        0x0A => Some(12),
        0x0B => Some(13),
        _ => None,
    }
}

// After the rank `last` the section of this id may come, and leaves this rank.
#[tactic(auto, unfolding(w_syntax::specs::Sections::next_rank))]
pub(crate) fn next_rank(last: u8, id: u8) -> Option<u8>
    ensures { result ≡ rank_next last id }
{
    if id == 0x00 {
        return Some(last);
    }
    let Some(rank) = rank(id) else {
        return None;
    };
    if last < rank { Some(rank) } else { None }
}

/// The section at a place, where it is framed and may come after the rank `last`.
#[tactic(auto, unfolding(crate::specs::Reading::framed, w_syntax::specs::Sections::frame))]
pub(crate) fn frame_at(bytes: &[u8], at: usize, last: u8) -> Option<Frame>
    ensures { FrameAt bytes.now at last result }
{
    let Some((id, next)) = read_byte(bytes, at) else {
        return None;
    };
    let Some((start, end)) = sized_at(bytes, next) else {
        return None;
    };
    let Some(rank) = next_rank(last, id) else {
        return None;
    };
    Some(Frame {
        rank,
        id,
        start,
        end,
    })
}
