//! Validity of tags.
ghost use Rattle.std.specs.Prelude.{◌≡◌, ◌↔◌, IsTrue};
ghost use Rattle.w_rules.specs.Valid.{TagValid};

use crate::by_index::item_at;
use crate::types::is_function_type;
use w_syntax::Module;

/// Whether the tag of this index is valid: the type of its index is a function type.
pub(crate) fn is_valid(candidate: &Module, index: usize) -> bool
    ensures { IsTrue result ↔ TagValid candidate.now index }
{
    match item_at(&candidate.tags, index) {
        Some(tag) => is_function_type(candidate, tag.type_index),
        None => false,
    }
}
