//! The item of a list at an index.
ghost use Rattle.std.specs.Prelude.{◌≡◌};
ghost use Rattle.std.specs.Option.{option_copied};
ghost use Rattle.expr_arguments.specs.Parts.{item_from};

/// The item at an index, from 0. A negative index counts from the end, where -1 is the last item. `None` if there is no
/// such item.
pub fn item<T>(items: &[T], place: i64) -> Option<&T>
    ensures { option_copied result ≡ item_from items.now place }
{
    if place >= 0 {
        return items.get(place as usize);
    }
    let place = items.len().checked_sub(place.unsigned_abs() as usize)?;
    items.get(place)
}
