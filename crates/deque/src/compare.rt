// The one comparison of two partials' values (document 01, "The bench reckoner": the engine compares the values of two
// partials only through one function).
ghost use Rattle.std.specs.Prelude.{◌≡◌, ◌+◌, ◌<◌, ◌^◌};
ghost use Rattle.deque.specs.Extremes.{order_of};

// Which extreme is kept: it fixes the order.
#[derive(Clone, Copy)]
pub enum Extreme {
    Maximum,
    Minimum,
}

// What a comparison found, and the total with this comparison counted.
#[derive(Clone, Copy)]
pub(crate) struct Compared {
    pub verdict: bool,
    pub total: u64,
}

// Whether the value of an older partial is at most that of a newer one, by the order: for maxima at most, for minima at
// least.
pub(crate) fn compare(extreme: Extreme, older: i32, newer: i32, total: u64) -> Compared
    requires { total + 1 < 2 ^ 64 }
    ensures { (result.verdict ≡ order_of extreme older newer) × (result.total ≡ total + 1) }
{
    let total = total + 1;
    match extreme {
        Extreme::Maximum => Compared {
            verdict: older <= newer,
            total,
        },
        Extreme::Minimum => Compared {
            verdict: newer <= older,
            total,
        },
    }
}
