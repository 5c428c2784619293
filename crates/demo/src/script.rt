// The starred cases of document 01, its sample session, and a reading refused for want of answer places, as lists of
// calls.
ghost use Rattle.std.specs.Prelude.{◌≡◌, ◌≤◌};
ghost use Rattle.demo.specs.Returns.{places_of};

use Call::{Reading, ReadingInto, Register, Start, Totals, Withdraw};
use registry::checks::ANSWER_PLACES;
use registry::list::RECORDS;
use std::array;

// The places of an answer table that holds an answer of each query that can be registered.
pub const PLACES: usize = RECORDS * ANSWER_PLACES;

// A call of a list, with what it is given.
#[derive(Clone, Copy)]
pub enum Call {
    Start,
    // Number, kind, range and slide.
    Register(u32, u32, u32, u32),
    Withdraw(u32),
    // With an answer table that holds an answer of each query.
    Reading(i32),
    // With an answer table of so many places.
    ReadingInto(i32, usize),
    Totals,
}

impl Call {
    // How many places the answer table has that a reading is given.
    pub fn places(self) -> usize
        ensures within { result ≤ PLACES }
        ensures exact { result ≡ places_of self }
    {
        match self {
            ReadingInto(_, places) => PLACES.min(places),
            _ => PLACES,
        }
    }
}

// 1 and 2: maximum, r 3, s 1, over the stream S, with the totals after the third reading too.
pub const SLIDING_MAXIMUM: &[Call] = &[
    Start,
    Register(1, 3, 3, 1),
    Reading(5),
    Reading(3),
    Reading(3),
    Totals,
    Reading(8),
    Reading(-2),
    Reading(6),
    Reading(1),
    Totals,
];

// 3: sum, r 5, s 3, over S.
pub const SLIDING_SUM: &[Call] = &[
    Start,
    Register(1, 1, 5, 3),
    Reading(5),
    Reading(3),
    Reading(3),
    Reading(8),
    Reading(-2),
    Reading(6),
    Reading(1),
    Totals,
];

// 4: maximum, r 1, s 4, over S.
pub const SHORT_RANGE: &[Call] = &[
    Start,
    Register(1, 3, 1, 4),
    Reading(5),
    Reading(3),
    Reading(3),
    Reading(8),
    Reading(-2),
    Reading(6),
    Reading(1),
    Totals,
];

// 5: maximum over the single reading -2,147,483,648.
pub const LEAST_READING: &[Call] = &[Start, Register(1, 3, 1, 1), Reading(i32::MIN)];

// Beyond the document: minimum over the single reading 2,147,483,647.
pub const GREATEST_READING: &[Call] = &[Start, Register(1, 4, 1, 1), Reading(i32::MAX)];

// 6: as 3, but a maximum, r 2, s 2, is registered after two readings.
pub const LATER_REGISTRATION: &[Call] = &[
    Start,
    Register(1, 1, 5, 3),
    Reading(5),
    Reading(3),
    Register(2, 3, 2, 2),
    Totals,
    Reading(3),
    Totals,
];

// 7: withdrawing the only query with a reading open.
pub const LAST_WITHDRAWAL: &[Call] = &[
    Start,
    Register(1, 1, 5, 3),
    Reading(5),
    Reading(3),
    Totals,
    Withdraw(1),
    Totals,
];

// 8 and 9: range 4,096; 4,097 and 0; number 0 with kind 9.
pub const FIELD_LIMITS: &[Call] = &[
    Start,
    Register(1, 1, 4096, 1),
    Register(2, 1, 4097, 1),
    Register(2, 1, 0, 1),
    Register(0, 9, 1, 1),
];

// 10: the 33rd query, before and after a withdrawal.
pub fn full_list() -> [Call; 36] {
    array::from_fn(|i| match i {
        0 => Start,
        1..=33 => Register(i as u32, 1, 1, 1),
        34 => Withdraw(7),
        _ => Register(33, 1, 1, 1),
    })
}

// The sample session of "Session lines".
pub const SAMPLE_SESSION: &[Call] = &[
    Start,
    Register(2, 1, 5, 3),
    Reading(5),
    Reading(3),
    Reading(3),
    Register(7, 3, 2, 2),
    Reading(8),
    Reading(-2),
    Withdraw(2),
    Withdraw(2),
    Reading(6),
    Totals,
];

// Beyond the document: an answer table one place short, and a number in use.
pub const REFUSED_READING: &[Call] = &[
    Start,
    Register(1, 2, 3, 1),
    ReadingInto(5, 3),
    Register(1, 2, 3, 1),
    Totals,
    ReadingInto(5, 4),
    Totals,
];
