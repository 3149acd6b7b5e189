//! Parts of lists, as far as they are there.
ghost use Rattle.std.specs.Prelude.{◌≡◌, ◌*◌, take, drop};
ghost use Rattle.bgp_model.specs.Table.{row_at};

/// The row of this number, from 0, in rows of so many columns that stand in one list.
pub(crate) fn row_in<T>(items: &[T], columns: usize, number: usize) -> &[T]
    ensures { result.now ≡ row_at columns number items.now }
{
    part_of(items, number.saturating_mul(columns), columns)
}

/// So many items from this place on, as far as there are any.
pub(crate) fn part_of<T>(items: &[T], start: usize, count: usize) -> &[T]
    ensures { result.now ≡ take count (drop start items.now) }
{
    let behind = &items[start.min(items.len())..];
    &behind[..count.min(behind.len())]
}
