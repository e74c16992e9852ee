//! Access to one element of a list, with a contract that is one equation.
ghost use Rattle.std.specs.Prelude.{◌≡◌, slice_get};
ghost use Rattle.std.specs.Option.{option_copied};

/// Returns `items.get(at)`, with a contract that is one equation.
pub fn item_at<T>(items: &[T], at: usize) -> Option<&T>
    ensures { option_copied result ≡ slice_get items.now at }
{
    items.get(at)
}

/// Takes the element at an index out of a vector. The other elements are dropped.
pub fn item_moved<T: Drop>(items: Vec<T>, at: usize) -> Option<T>
    ensures { result ≡ slice_get items.items at }
{
    let mut items = items;
    if at < items.len() {
        Some(items.swap_remove(at))
    } else {
        None
    }
}
