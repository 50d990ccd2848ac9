//! The counts that sections must agree on (Core, binary format, modules).
ghost use Rattle.std.specs.Prelude.{◌≡◌};
ghost use Rattle.w_decode.specs.Reading.{data_agrees as data_agreed, counts_agree as counts_agreed};

use crate::sections::PartialModule;
use w_syntax::{Module, any_uses_data};

// Whether a data count agrees with the module.
fn data_agrees(count: Option<u32>, tree: &Module) -> bool
    ensures { result ≡ data_agreed count tree.now }
{
    match count {
        Some(count) => count as usize == tree.datas.len(),
        None => !any_uses_data(tree.codes.as_slice()),
    }
}

/// Whether each function has its code, and the data count agrees.
pub(crate) fn counts_agree(so_far: &PartialModule) -> bool
    ensures { result ≡ counts_agreed so_far.now }
{
    so_far.tree.functions.len() == so_far.tree.codes.len()
        && data_agrees(so_far.data_count, &so_far.tree)
}
