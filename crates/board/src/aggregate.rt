// The aggregates of a stretch of readings, and its start.
ghost use Rattle.std.specs.Prelude.{◌≡◌};
ghost use Rattle.ints.specs.Sizes.{Small};
ghost use Rattle.window.specs.Orders.{greater};
ghost use Rattle.deque.specs.Extremes.{order_of};
ghost use Rattle.deque.specs.Sums.{sum_limit};
ghost use Rattle.board.specs.Aggregates.{first_reading, extended};

use deque::compare::Extreme;
use window::count::Count;

// The aggregates of a stretch that holds a reading, and its start.
#[derive(Clone, Copy)]
pub struct Aggregate {
    pub start: Count,
    pub sum: i64,
    pub maximum: i32,
    pub minimum: i32,
}

// The greater of two readings, by the order of maxima or of minima; the later of equals.
fn greater(extreme: Extreme, a: i32, b: i32) -> i32
    ensures { result ≡ greater (order_of extreme) a b }
{
    match extreme {
        Extreme::Maximum => a.max(b),
        Extreme::Minimum => a.min(b),
    }
}

impl Aggregate {
    // One reading, the first after `start`.
    pub fn first(start: Count, value: i32) -> Aggregate
        ensures { result ≡ first_reading start value }
    {
        Aggregate {
            start,
            sum: i64::from(value),
            maximum: value,
            minimum: value,
        }
    }

    // With one reading more.
    pub fn extended(self, value: i32) -> Aggregate
        requires { Small sum_limit self.sum }
        ensures { result ≡ extended value self }
    {
        let sum = ints::add_widened(self.sum, value);
        let maximum = greater(Extreme::Maximum, self.maximum, value);
        let minimum = greater(Extreme::Minimum, self.minimum, value);
        Aggregate {
            sum,
            maximum,
            minimum,
            ..self
        }
    }
}
