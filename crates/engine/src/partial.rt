// The open partial: the readings since its start, aggregated.
ghost use Rattle.std.specs.Prelude.{◌≡◌, ◌↔◌, IsTrue};
ghost use Rattle.ints.specs.Sizes.{Small};
ghost use Rattle.deque.specs.Sums.{sum_limit};
ghost use Rattle.engine.specs.Open.{open_with, open_while, FitsAggregate, FitsOpen};

use board::aggregate::Aggregate;
use window::count::Count;
use window::query::LENGTH_LIMIT;

// The greatest size of a reading: 2^31.
pub const READING_SIZE: u64 = 2_147_483_648;

// Document 01: the open partial, or none.
#[derive(Clone, Copy)]
pub enum Open {
    // None: no query is registered.
    Nothing,
    // An open partial that starts at n and holds no reading. It has neither maximum nor minimum.
    Empty,
    // An open partial that holds readings.
    Holding(Aggregate),
}

// Whether these can be the aggregates of the open partial, with n readings taken and `closed` partials closed.
fn aggregate_fits(a: Aggregate, n: Count, closed: Count) -> bool
    ensures { IsTrue result ↔ FitsAggregate n closed a }
{
    closed <= a.start
        && a.start < n
        && n - a.start < Count::from(LENGTH_LIMIT)
        && a.sum.unsigned_abs() <= u64::from(n - a.start) * READING_SIZE
}

impl Open {
    // With one reading more, the first after n.
    pub(crate) fn extended(self, n: Count, value: i32) -> Open
        requires { (a : Aggregate) → self ≡ Open.Holding a → Small sum_limit a.sum }
        ensures { result ≡ open_with n value self }
    {
        match self {
            Open::Nothing => Open::Nothing,
            Open::Empty => Open::Holding(Aggregate::first(n, value)),
            Open::Holding(a) => Open::Holding(a.extended(value)),
        }
    }

    // What stays open with so many queries left: with none, nothing.
    pub(crate) fn while_any(self, left: usize) -> Open
        ensures { result ≡ open_while left self }
    {
        if left == 0 {
            return Open::Nothing;
        }
        self
    }

    // Whether this can be open, with n readings taken and `closed` partials closed.
    pub(crate) fn fits(self, n: Count, closed: Count) -> bool
        ensures { IsTrue result ↔ FitsOpen n closed self }
    {
        match self {
            Open::Nothing | Open::Empty => true,
            Open::Holding(a) => aggregate_fits(a, n, closed),
        }
    }
}
