// The closed partials with their sums, on a table of starts and one of sums. The table of sums holds at each place the
// sum of the partials before it in its lap, so that the sum of a window is one subtraction.
ghost use Rattle.std.specs.Prelude.{◌≡◌, ◌↔◌, IsTrue, List, [], map, ℕ, ◌*◌, ◌<◌, ◌≤◌, ℤ, length};
ghost use Rattle.ints.specs.Sizes.{Small};
ghost use Rattle.window.specs.Orders.{sum};
ghost use Rattle.window.specs.Partials.{value_of};
ghost use Rattle.window.specs.Standing.{evicted};
ghost use Rattle.window.specs.Invariant.{Sorted};
ghost use Rattle.deque.specs.Rings.{capacity, entry_with, appended, BeyondKept};
ghost use Rattle.deque.specs.Sums.{partials_of, sum_limit, lap_limit, lap_places, lap_behind, FitsSums, InBounds};

use crate::ring::Ring;
use window::count::Count;

// The greatest size of a partial's sum: 2^47, the sum of 65,536 readings.
pub const SUM_LIMIT: u64 = 1 << 47;

// The greatest size of a lap's sum: 2^59.
pub const LAP_LIMIT: u64 = 1 << 59;

// The closed partials: their ring, and the sums of two laps of it. A lap is a run of pushes from place 0 to the last
// one.
#[derive(Clone, Copy)]
pub struct Sums {
    pub ring: Ring,
    // The sum of the partials since place 0.
    pub lap: i64,
    // The sum of the whole lap before it.
    pub previous: i64,
}

// The greatest size of the sum of the partials before place p in its lap; where p is 0, of the whole lap before it.
fn lap_bound(p: usize) -> u64
    requires { p < capacity }
    ensures { result ≡ lap_places p * sum_limit }
{
    if p == 0 {
        LAP_LIMIT
    } else {
        p as u64 * SUM_LIMIT
    }
}

impl Sums {
    // No partial.
    #[tactic(auto, unfolding(crate::specs::Rings::listed))]
    pub fn empty() -> Sums
        ensures fits { FitsSums result }
        ensures entries { (starts : List ℕ) (sums : List ℤ) → partials_of starts sums result ≡ [] }
        ensures bounds { (sums : List ℤ) → InBounds sums result }
    {
        Sums {
            ring: Ring::empty(),
            lap: 0,
            previous: 0,
        }
    }

    // Whether a state that was handed in can be used.
    pub fn fits(self) -> bool
        ensures { IsTrue result ↔ FitsSums self }
    {
        self.ring.fits()
            && self.lap.unsigned_abs() <= lap_bound(self.ring.place(self.ring.len))
            && self.previous.unsigned_abs() <= LAP_LIMIT
    }

    // Without the oldest partials that start before the horizon.
    pub fn evict(mut self, starts: &[Count], horizon: Count) -> Sums
        requires { FitsSums self × (capacity ≤ length starts.now) }
        ensures fits { FitsSums result }
        ensures entries { (sums : List ℤ) → partials_of starts.now sums result ≡ evicted horizon (partials_of starts.now sums self) }
        ensures bounds { (sums : List ℤ) → InBounds sums self → InBounds sums result }
        ensures laps { (result.lap ≡ self.lap) × (result.previous ≡ self.previous) }
    {
        self.ring = self.ring.evict(starts, horizon);
        self
    }

    // The closing step, once the ring is evicted: the partial that starts at `start` closes with `sum`. At place 0 a new
    // lap begins.
    pub fn close(mut self, starts: &mut [Count], sums: &mut [i64], start: Count, sum: i64) -> Sums
        requires { FitsSums self × (capacity ≤ length starts.old) × (capacity ≤ length sums.old) × Small sum_limit sum }
        ensures fits { FitsSums result }
        ensures entries { partials_of starts.new sums.new result
            ≡ appended (entry_with start sum) (partials_of starts.old sums.old self) }
        ensures bounds { InBounds sums.old self → InBounds sums.new result }
        ensures beyond { BeyondKept starts.old starts.new × BeyondKept sums.old sums.new }
    {
        let place = self.ring.push(starts, start);
        if place == 0 {
            self.previous = self.lap;
            self.lap = 0;
        }
        sums[place] = self.lap;
        self.lap += sum;
        self
    }

    // The sum of the lap before, where a place is greater than that of the newest: what stands there belongs to that
    // lap.
    fn lap_behind(self, place: usize) -> i64
        requires { FitsSums self × (0 < self.ring.len) }
        ensures value { result ≡ lap_behind self place }
        ensures small { Small lap_limit result }
    {
        let newest = self.ring.place(self.ring.len - 1);
        if newest < place { self.previous } else { 0 }
    }

    // The sum of the partials that start at `from` or later.
    pub fn sum_from(self, starts: &[Count], sums: &[i64], from: Count) -> i64
        requires { FitsSums self × (capacity ≤ length starts.now) × (capacity ≤ length sums.now) }
        ensures { Sorted (partials_of starts.now sums.now self)
            → InBounds sums.now self
            → result ≡ sum (map value_of (evicted from (partials_of starts.now sums.now self))) }
    {
        let Some(place) = self.ring.first_from(starts, from) else {
            return 0;
        };
        self.lap - ints::clamp(LAP_LIMIT, sums[place]) + self.lap_behind(place)
    }
}
