//! Fields of any kind, and lists of them (Core, binary format, conventions).
ghost use Rattle.std.specs.Prelude.{◌≡◌, IfOk};
ghost use Rattle.w_leb.specs.Format.{Format, ReadsAt, BeginsAt, whole};
ghost use Rattle.w_leb.specs.Formats.{number, vec};
ghost use Rattle.w_fields.specs.Places.{CutAt};

use lists::ListOf;
use std::alloc::{AllocError, Global};
use w_leb::read_u32;

/// A kind of field (Core, binary format, conventions).
pub trait Field {
    /// What it stands for.
    type Item: Drop;

    /// How it is spelled.
    ghost format: { Format Self.Item };

    /// The field that is spelled at a place, and the place behind it.
    fn read(
        alloc: Global,
        bytes: &[u8],
        at: usize,
    ) -> Result<Option<(Self::Item, usize)>, AllocError>
        ensures { IfOk result (ReadsAt format.read bytes.now at) };
}

/// The field of a kind that is spelled at a place, and the place behind it. `None` exactly where no spelling begins.
pub fn field_at<F: Field>(
    alloc: Global,
    bytes: &[u8],
    at: usize,
) -> Result<Option<(F::Item, usize)>, AllocError>
    ensures reads { IfOk result (ReadsAt F.format.read bytes.now at) }
    ensures begins { IfOk result (BeginsAt F.format.Spells bytes.now at) }
{
    F::read(alloc, bytes, at)
}

/// What all of the bytes spell.
pub fn whole_of<F: Field>(alloc: Global, bytes: &[u8]) -> Result<Option<F::Item>, AllocError>
    ensures { IfOk result (λ o. o ≡ whole (F.format.read bytes.now)) }
{
    let Some((item, next)) = F::read(alloc, bytes, 0)? else {
        return Ok(None);
    };
    if next < bytes.len() {
        return Ok(None);
    }
    Ok(Some(item))
}

/// The list of fields that all of the bytes spell.
pub fn list_of<F: Field>(alloc: Global, bytes: &[u8]) -> Result<Option<ListOf<F::Item>>, AllocError>
    ensures { IfOk result (λ o. o ≡ whole ((vec F.format).read bytes.now)) }
{
    let Some((items, next)) = vec_at::<F>(alloc, bytes, 0)? else {
        return Ok(None);
    };
    if next < bytes.len() {
        return Ok(None);
    }
    Ok(Some(items))
}

/// The bytes behind a size: where they begin, and where they end.
pub fn sized_at(bytes: &[u8], at: usize) -> Option<(usize, usize)>
    ensures { CutAt bytes.now at result }
{
    let Some((size, start)) = read_u32(bytes, at) else {
        return None;
    };
    let size = size as usize;
    if bytes.len() - start < size {
        return None;
    }
    Some((start, start + size))
}

// Reads a count, and so many fields; the list grows as they are read, however many are declared.
fn read_vec<F: Field>(
    alloc: Global,
    bytes: &[u8],
    at: usize,
) -> Result<Option<(ListOf<F::Item>, usize)>, AllocError>
    ensures { IfOk result (ReadsAt (vec F.format).read bytes.now at) }
{
    let Some((count, mut place)) = read_u32(bytes, at) else {
        return Ok(None);
    };
    let mut items = ListOf::new(alloc);
    for _ in 0..count {
        let Some((item, next)) = F::read(alloc, bytes, place)? else {
            return Ok(None);
        };
        items.push(item)?;
        place = next;
    }
    Ok(Some((items, place)))
}

/// A count, and so many fields. The list grows as they are read, however many are declared. `None` exactly where no spelling of one begins.
pub fn vec_at<F: Field>(
    alloc: Global,
    bytes: &[u8],
    at: usize,
) -> Result<Option<(ListOf<F::Item>, usize)>, AllocError>
    ensures reads { IfOk result (ReadsAt (vec F.format).read bytes.now at) }
    ensures begins { IfOk result (BeginsAt (vec F.format).Spells bytes.now at) }
{
    read_vec::<F>(alloc, bytes, at)
}

/// An index, a number of 32 bits.
pub struct IndexField;

impl Field for IndexField {
    type Item = u32;

    ghost format = { number 32 };

    fn read(_alloc: Global, bytes: &[u8], at: usize) -> Result<Option<(u32, usize)>, AllocError> {
        Ok(read_u32(bytes, at))
    }
}
