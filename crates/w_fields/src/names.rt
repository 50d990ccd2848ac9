//! Names (Core, binary format, values).
ghost use Rattle.std.specs.Prelude.{◌↔◌, IfOk, IsTrue, IsSome};
ghost use Rattle.w_leb.specs.Format.{ReadsAt, BeginsAt};
ghost use Rattle.w_syntax.specs.Fields.{name};

use crate::fields::{Field, sized_at};
use std::alloc::{AllocError, Global};
use w_syntax::Name;

// Reads a name.
fn read_name(alloc: Global, bytes: &[u8], at: usize) -> Result<Option<(Name, usize)>, AllocError>
    ensures { IfOk result (ReadsAt name.read bytes.now at) }
{
    let Some((start, end)) = sized_at(bytes, at) else {
        return Ok(None);
    };
    let Ok(text) = std::str::from_utf8(&bytes[start..end]) else {
        return Ok(None);
    };
    Ok(Some((Name::new(String::from_str(alloc, text)?), end)))
}

/// The name at a place: bytes behind their count, which are UTF-8. `None` exactly where no spelling of one begins.
pub fn name_at(alloc: Global, bytes: &[u8], at: usize) -> Result<Option<(Name, usize)>, AllocError>
    ensures reads { IfOk result (ReadsAt name.read bytes.now at) }
    ensures begins { IfOk result (BeginsAt name.Spells bytes.now at) }
{
    read_name(alloc, bytes, at)
}

/// A name, as a kind of field.
pub struct NameField;

impl Field for NameField {
    type Item = Name;

    ghost format = { name };

    fn read(alloc: Global, bytes: &[u8], at: usize) -> Result<Option<(Name, usize)>, AllocError> {
        name_at(alloc, bytes, at)
    }
}

/// Whether a name stands at the front.
#[tactic(auto, unfolding(w_syntax::specs::Fields::name))]
pub fn has_name(bytes: &[u8]) -> bool
    ensures { IsTrue result ↔ IsSome (name.read bytes.now) }
{
    let Some((start, end)) = sized_at(bytes, 0) else {
        return false;
    };
    match std::str::from_utf8(&bytes[start..end]) {
        Ok(_) => true,
        Err(_) => false,
    }
}
