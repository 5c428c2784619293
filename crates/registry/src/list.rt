// The list of registered queries (document 01, "The board"), as numbers that are lent: 32 records of five numbers
// (number, kind, range, slide, registration point), and the places of the used records by ascending number. The used
// records come first, in registration order. Registration points of 64 bits would take two numbers of a record.
ghost use Rattle.std.specs.Prelude.{◌≡◌, ℕ, ◌<◌, ◌≤◌, length};
ghost use Rattle.window.specs.Queries.{Limits};
ghost use Rattle.registry.specs.Records.{record_limit, list_places, record_at, with_record};

use window::count::{Count, narrow};
use window::query::Query;

// How many records the list has.
pub const RECORDS: usize = 32;

// How many numbers a record has.
pub const QUERY_NUMBERS: usize = 5;

// Where the places by ascending number begin.
pub const ORDER: usize = 160;

// How many numbers the list has.
pub const LIST_PLACES: usize = 192;

// The registered queries: a list that is long enough, and how many of its records are used.
#[derive(Clone, Copy)]
pub struct Queries<'a> {
    pub list: &'a [u32],
    pub used: usize,
    ghost long: { list_places ≤ length list.now },
    ghost few: { used ≤ record_limit },
}

// The same where the fields of each used record are within their limits, as they are after check 2.
#[derive(Clone, Copy)]
pub struct Checked<'a> {
    pub queries: Queries<'a>,
    ghost limits: { (i : ℕ) → i < queries.used → Limits (record_at queries.list.now i) },
}

impl Queries<'_> {
    // The record at place i.
    pub fn query(self, i: usize) -> Query
        requires { i < record_limit }
        ensures { result ≡ record_at self.entry.list.now i }
    {
        let at = QUERY_NUMBERS * i;
        Query {
            number: self.list[at],
            kind: self.list[at + 1],
            range: self.list[at + 2],
            slide: self.list[at + 3],
            origin: Count::from(self.list[at + 4]),
        }
    }
}

// The record at place i becomes q.
pub fn put_query(list: &mut [u32], i: usize, q: Query)
    requires { (list_places ≤ length list.old) × (i < record_limit) }
    ensures { list.new ≡ with_record i q list.old }
{
    let at = QUERY_NUMBERS * i;
    list[at] = q.number;
    list[at + 1] = q.kind;
    list[at + 2] = q.range;
    list[at + 3] = q.slide;
    list[at + 4] = narrow(q.origin);
}
