// The lent tables: check 1, and the zeroes of a start.
ghost use Rattle.std.specs.Prelude.{◌≡◌, true, ◌≤◌, length};
ghost use Rattle.deque.specs.Rings.{capacity};
ghost use Rattle.board.specs.Tables.{tables_long, zeroed, zeroed_tables};
ghost use Rattle.board.specs.Lending.{lent_lists, shared_lists, SameSlices};

use deque::ring::CAPACITY;
use window::count::Count;

// The six tables, lent to be written.
#[derive(Drop)]
pub struct LentTables<'a> {
    // Starts and sums of the partials.
    pub starts: &'a mut [Count],
    pub sums: &'a mut [i64],
    // Starts and values for maxima, and for minima.
    pub max_starts: &'a mut [Count],
    pub max_values: &'a mut [i32],
    pub min_starts: &'a mut [Count],
    pub min_values: &'a mut [i32],
}

// The same, lent to be read.
#[derive(Clone, Copy)]
pub struct SharedTables<'a> {
    pub starts: &'a [Count],
    pub sums: &'a [i64],
    pub max_starts: &'a [Count],
    pub max_values: &'a [i32],
    pub min_starts: &'a [Count],
    pub min_values: &'a [i32],
}

// The first 4,096 places of a table become this.
fn overwrite<T: Copy>(table: &mut [T], nought: T)
    requires long { capacity ≤ length table.old }
    requires copied { T.is_infallible nought × ((y : T) → T.is_clone nought y → y ≡ nought) }
    ensures { table.new ≡ zeroed nought table.old }
{
    table[..CAPACITY].fill(nought);
}

impl LentTables<'_> {
    // The tables, to be read for a while.
    pub fn shared(&self) -> SharedTables<'_>
        ensures { shared_lists result ≡ lent_lists self.now }
    {
        SharedTables {
            starts: &*self.starts,
            sums: &*self.sums,
            max_starts: &*self.max_starts,
            max_values: &*self.max_values,
            min_starts: &*self.min_starts,
            min_values: &*self.min_values,
        }
    }

    // The first 4,096 places of each of the six become 0.
    pub fn zero(&mut self)
        requires { tables_long (lent_lists self.old) ≡ true }
        ensures same { SameSlices self.old self.new }
        ensures zeroed { lent_lists self.new ≡ zeroed_tables (lent_lists self.old) }
    {
        overwrite(self.starts, 0);
        overwrite(self.sums, 0);
        overwrite(self.max_starts, 0);
        overwrite(self.max_values, 0);
        overwrite(self.min_starts, 0);
        overwrite(self.min_values, 0);
    }
}

impl SharedTables<'_> {
    // Check 1: whether each of the six has 4,096 places or more.
    #[tactic(auto, unfolding(crate::specs::Tables::enough))]
    pub fn are_long(self) -> bool
        ensures { result ≡ tables_long (shared_lists self.entry) }
    {
        CAPACITY <= self.starts.len()
            && CAPACITY <= self.sums.len()
            && CAPACITY <= self.max_starts.len()
            && CAPACITY <= self.max_values.len()
            && CAPACITY <= self.min_starts.len()
            && CAPACITY <= self.min_values.len()
    }
}
