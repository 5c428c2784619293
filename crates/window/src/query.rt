// A query, and what it means at a count of readings (document 01, "What a query means" and "Where partials are cut").
ghost use Rattle.std.specs.Prelude.{◌≡◌, ◌≤◌};
ghost use Rattle.window.specs.Queries.{Limits, joining, phase, due, edge, window_start, window_count};
ghost use Rattle.window.specs.Kinds.{KindOf};

use crate::count::{Count, narrow};
use crate::refusal::Refusal;

// The greatest query number, the number of kinds, and the greatest range and slide.
pub const NUMBER_LIMIT: u32 = 65_535;

pub const KIND_LIMIT: u32 = 4;

pub const LENGTH_LIMIT: u32 = 4_096;

// What a query asks of its windows, with the document's number.
#[derive(Clone, Copy, Debug, PartialEq, Eq)]
pub enum Kind {
    Sum = 1,
    Count = 2,
    Maximum = 3,
    Minimum = 4,
}

// The kind of a number. Check 4 refuses every other number.
impl TryFrom<u32> for Kind {
    type Error = Refusal;

    ghost try_from_gives = { KindOf };

    fn try_from(number: u32) -> Result<Kind, Refusal> {
        match number {
            1 => Ok(Kind::Sum),
            2 => Ok(Kind::Count),
            3 => Ok(Kind::Maximum),
            4 => Ok(Kind::Minimum),
            _ => Err(Refusal::KindOutside),
        }
    }
}

#[derive(Clone, Copy, Debug, Default, PartialEq, Eq)]
pub struct Query {
    // Chosen by the caller, 1 to 65,535.
    pub number: u32,
    // 1 sum, 2 count, 3 maximum, 4 minimum.
    pub kind: u32,
    // The range r, 1 to 4,096 readings: how many readings a full window holds.
    pub range: u32,
    // The slide s, 1 to 4,096 readings: how many readings lie between two answers.
    pub slide: u32,
    // Document 01's registration point g: the count of readings at which the query was accepted.
    pub origin: Count,
}

// What a registration brings: the fields of a query, without its registration point.
#[derive(Clone, Copy, Debug, PartialEq, Eq)]
pub struct Registration {
    pub number: u32,
    pub kind: u32,
    pub range: u32,
    pub slide: u32,
}

impl Registration {
    // The query that joins at this count of readings.
    pub fn at(self, origin: Count) -> Query
        ensures { result ≡ joining self.number self.kind self.range self.slide origin }
    {
        Query {
            number: self.number,
            kind: self.kind,
            range: self.range,
            slide: self.slide,
            origin,
        }
    }
}

impl Query {
    // How far m is from where the slides are counted. Due and edge depend on m through it, and on m > g.
    #[tactic(auto, unfolding(crate::specs::Queries::phase))]
    fn phase(self, m: Count) -> Count
        requires { self.origin ≤ m }
        ensures { result ≡ phase m self }
    {
        m - self.origin
    }

    // Whether the query is answered at n.
    pub fn due(self, n: Count) -> bool
        requires { Limits self }
        ensures { result ≡ due n self }
    {
        self.origin < n && self.phase(n) % Count::from(self.slide) == 0
    }

    // Whether a window of the query can end or begin at m (document 01: the query cuts at m). The phase is reduced
    // before the range is added to it: m - g + r itself can pass the width of a count.
    pub fn edge(self, m: Count) -> bool
        requires { Limits self }
        ensures { result ≡ edge m self }
    {
        if m <= self.origin {
            return false;
        }
        let slide = Count::from(self.slide);
        let rest = self.phase(m) % slide;
        if rest == 0 {
            return true;
        }
        (rest + Count::from(self.range)) % slide == 0
    }

    // The window at n holds the readings after this place.
    pub fn window_start(self, n: Count) -> Count
        ensures { result ≡ window_start n self }
    {
        self.origin.max(n.saturating_sub(Count::from(self.range)))
    }

    // How many readings the window at n holds: a number of 32 bits, whatever the width of a count.
    pub fn window_count(self, n: Count) -> u32
        requires { self.origin ≤ n }
        ensures { result ≡ window_count n self }
    {
        let since = n - self.origin;
        narrow(since.min(Count::from(self.range)))
    }
}
