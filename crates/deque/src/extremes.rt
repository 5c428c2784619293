// A monotonic deque: the standing partials of one order (document 01, "Where partials are cut"), on a table of starts
// and one of values.
ghost use Rattle.std.specs.Prelude.{◌≡◌, List, [], ℕ, ◌+◌, ◌<◌, ◌≤◌, ◌^◌, ℤ, pos, length};
ghost use Rattle.window.specs.Standing.{evicted, front_of};
ghost use Rattle.window.specs.Invariant.{Sorted};
ghost use Rattle.deque.specs.Rings.{capacity, Fits, entry_with, BeyondKept};
ghost use Rattle.deque.specs.Extremes.{order_of, entries_of, closed_with, trim_comparisons};

use crate::compare::{Extreme, compare};
use crate::ring::Ring;
use window::count::Count;

// The ring of the entries, and the total of the comparisons made (document 01: M or N).
#[derive(Clone, Copy)]
pub struct Deque {
    pub ring: Ring,
    pub comparisons: u64,
}

impl Deque {
    // No entry, and no comparison made.
    #[tactic(auto, unfolding(crate::specs::Rings::listed))]
    pub fn empty() -> Deque
        ensures fits { Fits result.ring }
        ensures entries { (starts : List ℕ) (values : List ℤ) → entries_of starts values result.ring ≡ [] }
        ensures cost { result.comparisons ≡ 0 }
    {
        Deque {
            ring: Ring::empty(),
            comparisons: 0,
        }
    }

    // Without the oldest entries that start before the horizon.
    #[tactic(auto, using(crate::proofs::Closing::entries_evicted))]
    pub fn evict(self, starts: &[Count], horizon: Count) -> Deque
        requires { Fits self.ring × (capacity ≤ length starts.now) }
        ensures fits { Fits result.ring }
        ensures entries { (values : List ℤ) → entries_of starts.now values result.ring ≡ evicted horizon (entries_of starts.now values self.ring) }
        ensures cost { result.comparisons ≡ self.comparisons }
    {
        let ring = self.ring;
        let kept = ring.evict(starts, horizon);
        Deque {
            ring: kept,
            comparisons: self.comparisons,
        }
    }

    // The closing step, once the deque is evicted: the partial that starts at `start` closes with `value`.
    pub fn close(
        self,
        extreme: Extreme,
        starts: &mut [Count],
        values: &mut [i32],
        start: Count,
        value: i32,
    ) -> Deque
        requires { Fits self.ring × (capacity ≤ length starts.old) × (capacity ≤ length values.old) × (self.comparisons + capacity < 2 ^ 64) }
        ensures fits { Fits result.ring }
        ensures entries { entries_of starts.new values.new result.ring
            ≡ closed_with (order_of extreme) (entry_with start value) (entries_of starts.old values.old self.ring) }
        ensures cost { result.comparisons
            ≡ self.comparisons + trim_comparisons (order_of extreme) (entry_with start value) (entries_of starts.old values.old self.ring) }
        ensures beyond { BeyondKept starts.old starts.new × BeyondKept values.old values.new }
    {
        let mut len = self.ring.len;
        let mut total = self.comparisons;
        let left = loop {
            let Some(newest) = len.checked_sub(1) else {
                break 0;
            };
            let last = self.ring.place(newest);
            let compared = compare(extreme, values[last], value, total);
            total = compared.total;
            if !compared.verdict {
                break len;
            }
            len = newest;
        };
        let mut ring = Ring {
            len: left,
            ..self.ring
        };
        let next = ring.push(starts, start);
        values[next] = value;
        Deque {
            ring,
            comparisons: total,
        }
    }

    // The value of the first entry that starts at `from` or later: the extreme of the readings since then. 0 where
    // there is none.
    #[tactic(auto, using(crate::proofs::Closing::first_value, crate::proofs::Closing::no_value))]
    pub fn extreme_from(self, starts: &[Count], values: &[i32], from: Count) -> i32
        requires { Fits self.ring × (capacity ≤ length starts.now) × (capacity ≤ length values.now) }
        ensures { Sorted (entries_of starts.now values.now self.ring)
            → result ≡ front_of (pos 0) (evicted from (entries_of starts.now values.now self.ring)) }
    {
        let Some(place) = self.ring.first_from(starts, from) else {
            return 0;
        };
        values[place]
    }
}
