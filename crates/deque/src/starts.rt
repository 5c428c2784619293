// The search in a ring, by the starts of its entries.
ghost use Rattle.std.specs.Prelude.{◌≡◌, ◌-◌, ◌<◌, ◌≤◌, IsTrue, length};
ghost use Rattle.std.specs.List.Sorted.{IsNonDecreasing};
ghost use Rattle.deque.specs.Rings.{capacity, place, Fits, start_at, starts_of, count_before};

use crate::ring::Ring;
use window::count::{Count, size};

// A ring, and the table that holds the starts of its entries.
#[derive(Clone, Copy)]
pub(crate) struct Starts<'a> {
    pub ring: Ring,
    pub table: &'a [Count],
    ghost fits: { Fits ring },
    ghost long: { capacity ≤ length table.now },
}

#[tactic(auto, using(crate::proofs::Rings::count_between), unfolding(crate::specs::Rings::listed))]
impl Starts<'_> {
    // The start of entry j.
    fn at(&self, j: usize) -> Count
        requires { j < self.now.ring.len }
        ensures { result ≡ start_at self.now.table.now (place self.now.ring.head j) }
    {
        self.table[self.ring.place(j)]
    }

    // Where the first entry that starts at `from` or later would be if each entry since the oldest held one reading, as
    // with a slide of 1.
    fn guess(&self, from: Count) -> usize
        ensures { result ≤ self.now.ring.len }
    {
        let oldest = self.table[self.ring.head];
        size(from.saturating_sub(oldest)).min(self.ring.len)
    }

    // Whether the two entries at j show that entry j is the first that starts at `from` or later.
    fn is_first(&self, from: Count, j: usize) -> bool
        requires { j ≤ self.now.ring.len }
        ensures { IsTrue result → IsNonDecreasing (starts_of self.now.table.now self.now.ring)
            → j ≡ count_before from (starts_of self.now.table.now self.now.ring) }
    {
        (j == 0 || self.at(j - 1) < from) && (j == self.ring.len || from <= self.at(j))
    }

    // How many entries come before the first that starts at `from` or later, where starts never fall: as guessed, where
    // the two entries there show it, and else by binary search.
    pub(crate) fn search(&self, from: Count) -> usize
        ensures within { result ≤ self.now.ring.len }
        ensures found { IsNonDecreasing (starts_of self.now.table.now self.now.ring)
            → result ≡ count_before from (starts_of self.now.table.now self.now.ring) }
    {
        let guess = self.guess(from);
        if self.is_first(from, guess) {
            return guess;
        }
        self.bisect(from)
    }

    // The same, by binary search.
    fn bisect(&self, from: Count) -> usize
        ensures within { result ≤ self.now.ring.len }
        ensures found { IsNonDecreasing (starts_of self.now.table.now self.now.ring)
            → result ≡ count_before from (starts_of self.now.table.now self.now.ring) }
    {
        let mut low = 0;
        let mut high = self.ring.len;
        while low < high {
            let middle = low + (high - low) / 2;
            if self.at(middle) < from {
                low = middle + 1;
            } else {
                high = middle;
            }
        }
        low
    }
}
