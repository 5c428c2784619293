// The board's state: it goes in by value and comes back, with six lent tables.
ghost use Rattle.std.specs.Prelude.{◌≡◌, ◌↔◌, IsTrue, true, ◌<◌, ◌≤◌};
ghost use Rattle.ints.specs.Sizes.{Small};
ghost use Rattle.window.specs.Queries.{count_limit};
ghost use Rattle.deque.specs.Rings.{Fits};
ghost use Rattle.deque.specs.Sums.{sum_limit};
ghost use Rattle.board.specs.Tables.{tables_long};
ghost use Rattle.board.specs.Lending.{lent_lists, shared_lists, SameSlices};
ghost use Rattle.board.specs.Boards.{total_limit, Usable, Within, CloseEnsures, ValueEnsures, HeadsEnsures, EmptyEnsures};

use crate::aggregate::Aggregate;
use crate::heads::Heads;
use crate::tables::{LentTables, SharedTables};
use deque::compare::Extreme;
use deque::extremes::Deque;
use deque::sums::Sums;
use window::count::Count;
use window::query::Kind;

#[derive(Clone, Copy)]
pub struct Board {
    // P: the count of what is closed.
    pub closed: Count,
    // What is closed, with its sums.
    pub sums: Sums,
    // What stands for maxima, with M.
    pub maxima: Deque,
    // What stands for minima, with N.
    pub minima: Deque,
}

// Whether a total of comparisons can be that of so many closed partials: at most 2 P - 2, and 0 where P is 0.
fn total_fits(total: u64, closed: Count) -> bool
    ensures { IsTrue result ↔ total ≤ total_limit closed }
{
    total <= (2 * u64::from(closed)).saturating_sub(2)
}

// Whether a deque that was handed in can be used, with so many partials closed.
fn deque_fits(deque: Deque, closed: Count) -> bool
    ensures { IsTrue result ↔ Fits deque.ring × (deque.comparisons ≤ total_limit closed) }
{
    deque.ring.fits() && total_fits(deque.comparisons, closed)
}

impl Board {
    // Nothing is closed.
    pub fn empty() -> Board
        ensures { EmptyEnsures result }
    {
        let sums = Sums::empty();
        let maxima = Deque::empty();
        let minima = Deque::empty();
        Board {
            closed: 0,
            sums,
            maxima,
            minima,
        }
    }

    // Whether a board that was handed in can be used.
    pub fn fits(self) -> bool
        ensures { IsTrue result ↔ Within self }
    {
        self.sums.fits()
            && deque_fits(self.maxima, self.closed)
            && deque_fits(self.minima, self.closed)
    }

    // The aggregate a closes. All three rings are evicted, of what starts before the horizon, before any is written.
    #[tactic(auto, unfolding(crate::specs::Tables::enough))]
    pub fn close(self, a: Aggregate, horizon: Count, tables: &mut LentTables<'_>) -> Board
        requires { Within self × (self.closed < count_limit) × Small sum_limit a.sum
            × (tables_long (lent_lists tables.old) ≡ true) }
        ensures same { SameSlices tables.old tables.new }
        ensures closed { CloseEnsures a horizon self (lent_lists tables.old) result (lent_lists tables.new) }
    {
        let before = tables.shared();
        let partials = self.sums.evict(before.starts, horizon);
        let maxima = self.maxima.evict(before.max_starts, horizon);
        let minima = self.minima.evict(before.min_starts, horizon);
        Board {
            sums: partials.close(tables.starts, tables.sums, a.start, a.sum),
            maxima: maxima.close(
                Extreme::Maximum,
                tables.max_starts,
                tables.max_values,
                a.start,
                a.maximum,
            ),
            minima: minima.close(
                Extreme::Minimum,
                tables.min_starts,
                tables.min_values,
                a.start,
                a.minimum,
            ),
            closed: self.closed + 1,
        }
    }

    // The value of a kind over all that is closed and starts at `from` or later; 0 where nothing is. A kind that is
    // neither the sum nor the maximum counts as the minimum: the number is taken as a query has it.
    #[tactic(auto, unfolding(crate::specs::Tables::enough))]
    pub fn value_from(self, kind: u32, from: Count, tables: SharedTables<'_>) -> i64
        requires { Usable self × (tables_long (shared_lists tables) ≡ true) }
        ensures { ValueEnsures kind from self (shared_lists tables.entry) result }
    {
        if kind == Kind::Sum as u32 {
            return self.sums.sum_from(tables.starts, tables.sums, from);
        }
        if kind == Kind::Maximum as u32 {
            return i64::from(
                self.maxima
                    .extreme_from(tables.max_starts, tables.max_values, from),
            );
        }
        i64::from(
            self.minima
                .extreme_from(tables.min_starts, tables.min_values, from),
        )
    }

    // The values of the three kinds over all that is closed and starts at the horizon or later.
    #[tactic(auto, unfolding(crate::specs::Tables::enough))]
    pub fn heads(self, horizon: Count, tables: SharedTables<'_>) -> Heads
        requires { Usable self × (tables_long (shared_lists tables) ≡ true) }
        ensures { HeadsEnsures horizon self (shared_lists tables.entry) result }
    {
        Heads {
            sum: self.sums.sum_from(tables.starts, tables.sums, horizon),
            maximum: self
                .maxima
                .extreme_from(tables.max_starts, tables.max_values, horizon),
            minimum: self
                .minima
                .extreme_from(tables.min_starts, tables.min_values, horizon),
        }
    }
}
