// One item, written several times over.
ghost use Rattle.std.specs.Prelude.{◌≡◌};
ghost use Rattle.handshake.specs.Spread.{spread_out};

// Writes the item to n places from `at` on, where there are so many, and otherwise nothing. By `fill_with`, since `fill`
// asks that a clone cannot fail, which `Copy` does not tell.
pub fn spread<T: Copy>(items: &mut [T], at: usize, n: usize, item: T)
    ensures { items.new ≡ spread_out items.old at n item }
{
    if at <= items.len() && n <= items.len() - at {
        items[at..at + n].fill_with(|| item);
    }
}
