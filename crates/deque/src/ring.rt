// A ring over the first 4,096 places of lent tables: where its entries stand, evicting the oldest, and one entry more.
ghost use Rattle.std.specs.Prelude.{◌≡◌, ℕ, ◌+◌, ◌-◌, ◌<◌, ◌≤◌, ◌↔◌, IsTrue, MatchOption, length, set};
ghost use Rattle.std.specs.List.Sorted.{IsNonDecreasing};
ghost use Rattle.deque.specs.Rings.{capacity, place, Fits, starts_of, advanced, with_room, grown, count_before};

use crate::starts::Starts;
use window::count::Count;

// How many places of each table are used.
pub const CAPACITY: usize = 4_096;

// The entries of a ring: `len` of them, the oldest at place `head`.
#[derive(Clone, Copy)]
pub struct Ring {
    pub head: usize,
    pub len: usize,
}

impl Ring {
    // No entry.
    pub(crate) fn empty() -> Ring
        ensures { Fits result × (result.head ≡ 0) × (result.len ≡ 0) }
    {
        Ring { head: 0, len: 0 }
    }

    // Whether a ring that was handed in can be used.
    pub fn fits(self) -> bool
        ensures { IsTrue result ↔ Fits self }
    {
        self.head < CAPACITY && self.len <= CAPACITY
    }

    // The place of entry j.
    pub(crate) fn place(self, j: usize) -> usize
        requires { Fits self × (j ≤ capacity) }
        ensures { result ≡ place self.head j }
    {
        (self.head + j) % CAPACITY
    }

    // Without its k oldest entries.
    fn advanced(self, k: usize) -> Ring
        requires { Fits self × (k ≤ self.len) }
        ensures { result ≡ advanced k self }
    {
        Ring {
            head: self.place(k),
            len: self.len - k,
        }
    }

    // Without the oldest entries that start before the horizon.
    #[tactic(auto, using(crate::proofs::Rings::evicted_is))]
    pub(crate) fn evict(mut self, starts: &[Count], horizon: Count) -> Ring
        requires { Fits self × (capacity ≤ length starts.now) }
        ensures fits { Fits result × (result.len ≤ self.len) }
        ensures evicted { result ≡ advanced (count_before horizon (starts_of starts.now self)) self }
    {
        while 0 < self.len && starts[self.head] < horizon {
            self = self.advanced(1);
        }
        self
    }

    // The place of the first entry that starts at `from` or later, where starts never fall; None where none does.
    pub(crate) fn first_from(self, starts: &[Count], from: Count) -> Option<usize>
        requires { Fits self × (capacity ≤ length starts.now) }
        ensures { MatchOption result
            (IsNonDecreasing (starts_of starts.now self) → self.len ≤ count_before from (starts_of starts.now self))
            (λ p. (j : ℕ) × (j < self.len) × (p ≡ place self.head j)
            × (IsNonDecreasing (starts_of starts.now self) → j ≡ count_before from (starts_of starts.now self))) }
    {
        let entries = Starts {
            ring: self,
            table: starts,
        };
        let first = entries.search(from);
        (first < self.len).then(|| self.place(first))
    }

    // With room for one entry more: a full ring drops its oldest. Where the ring holds live partials alone, there is
    // room.
    fn with_room(self) -> Ring
        requires { Fits self }
        ensures fits { Fits result × (result.len < capacity) }
        ensures room { result ≡ with_room self }
    {
        if self.len < CAPACITY {
            self
        } else {
            self.advanced(1)
        }
    }

    // One entry more, after the newest: its start is stored at its place, which is returned.
    pub(crate) fn push(&mut self, starts: &mut [Count], start: Count) -> usize
        requires { Fits self.old × (capacity ≤ length starts.old) }
        ensures fits { Fits self.new × (result < capacity) }
        ensures pushed { (self.new ≡ grown (with_room self.old)) × (result ≡ place (with_room self.old).head (with_room self.old).len) }
        ensures stored { starts.new ≡ set starts.old result start }
    {
        *self = self.with_room();
        let place = self.place(self.len);
        starts[place] = start;
        self.len += 1;
        place
    }
}
