//! Items of lists.
ghost use Rattle.std.specs.Prelude.{◌≡◌, slice_get};

/// The item at an index.
pub(crate) fn item_at<T: Copy>(items: &[T], index: usize) -> Option<T>
    ensures { slice_get items.now index ≡ result }
{
    Some(*items.get(index)?)
}
