//! Items of lists by their index.
ghost use Rattle.std.specs.Prelude.{◌≡◌, slice_get};
ghost use Rattle.std.specs.Option.{option_copied};

use lists::ListOf;

/// The item of this index, where there is one.
pub fn item_at<T>(list: &ListOf<T>, index: usize) -> Option<&T>
    ensures { option_copied result ≡ slice_get list.now index }
{
    list.as_slice().get(index)
}
