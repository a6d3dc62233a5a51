//! Numbers in order.
ghost use Rattle.std.specs.Prelude.{Contains};
ghost use Rattle.sums.specs.Order.{ListsRising, ListsFalling};

/// The values, each once, from the least up.
pub fn rising(mut values: Vec<i32>) -> Vec<i32>
    ensures { ListsRising (Contains values.items) result.items }
{
    values.sort_unstable();
    values.dedup();
    values
}

/// The values, each once, from the greatest down.
pub fn falling(values: Vec<i32>) -> Vec<i32>
    ensures { ListsFalling (Contains values.items) result.items }
{
    let mut values = rising(values);
    values.reverse();
    values
}
