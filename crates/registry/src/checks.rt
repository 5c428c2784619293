// What the calls are refused for: checks 1 and 2 on the list, and checks 3 to 11 (document 01, "The calls and where each
// refuses").
ghost use Rattle.std.specs.Prelude.{◌≡◌, ◌<◌, ◌&&◌, nat_le, length};
ghost use Rattle.window.specs.Queries.{count_limit};
ghost use Rattle.window.specs.Refusals.{first_refusal, register_checks, withdraw_checks, count_checks, places_checks, reading_checks};
ghost use Rattle.registry.specs.Held.{held, ListJudged};
ghost use Rattle.registry.specs.Records.{list_places, list_fits};

use crate::bits::Bits;
use crate::list::{Checked, LIST_PLACES, ORDER, Queries, RECORDS};
use window::count::{COUNT_LIMIT, Count};
use window::query::{NUMBER_LIMIT, Registration};
use window::refusal::{Refusal, check_fields};

// The places of an answer in the answer table.
pub const ANSWER_PLACES: usize = 4;

// Checks 1 and 2 on the list, with so many queries registered and n readings taken. What passes is handed on as checked.
#[tactic(auto, unfolding(crate::specs::Records::list_fits))]
pub fn check_list(list: &[u32], used: usize, n: Count) -> Result<Checked<'_>, Refusal>
    ensures { ListJudged n used list.now result }
{
    if list.len() < LIST_PLACES {
        return Err(Refusal::TableTooShort);
    }
    if RECORDS < used {
        return Err(Refusal::Damaged);
    }
    let queries = Queries { list, used };
    if !queries.whole(n) {
        return Err(Refusal::Damaged);
    }
    Ok(Checked { queries })
}

// Whether the list passes them.
pub fn fits(list: &[u32], used: usize, n: Count) -> bool
    ensures { result ≡ (nat_le list_places (length list.now) && list_fits n used list.now) }
{
    check_list(list, used, n).is_ok()
}

// Check 10, with n readings taken: the next one can be counted.
#[tactic(auto, unfolding(window::specs::Refusals::count_checks))]
pub fn check_count(n: Count) -> Result<(), Refusal>
    ensures { result ≡ first_refusal (count_checks count_limit n) }
{
    if COUNT_LIMIT <= n {
        return Err(Refusal::CountExhausted);
    }
    Ok(())
}

impl Queries<'_> {
    // Check 2, in one pass over the places by ascending number and over the records. Along the places, each that of a
    // used record, the numbers ascend: so the places differ and are those of all used records, no two of which share a
    // number, and the last number is the greatest. An origin above n ends the pass at once: where it is only
    // remembered, the compiler takes a record's fields one by one.
    fn whole(self, n: Count) -> bool
        ensures { result ≡ list_fits n self.entry.used self.entry.list.now }
    {
        let mut last = 0;
        let mut bits = Bits::default();
        for j in 0..self.used {
            let p = self.list[ORDER + j] as usize;
            if self.used <= p {
                return false;
            }
            let number = self.query(p).number;
            if number <= last {
                return false;
            }
            let q = self.query(j);
            if n < q.origin {
                return false;
            }
            last = number;
            bits = bits.with(q);
        }
        last <= NUMBER_LIMIT && bits.within()
    }

    // Checks 3 to 8.
    #[tactic(auto, using(crate::proofs::Verdicts::register_taken, crate::proofs::Verdicts::register_full, crate::proofs::Verdicts::register_joins))]
    pub fn check_register(self, asked: Registration) -> Result<(), Refusal>
        ensures { result ≡ first_refusal (register_checks (held self.entry) asked.number asked.kind asked.range asked.slide) }
    {
        check_fields(asked)?;
        if self.holds(asked.number) {
            return Err(Refusal::NumberTaken);
        }
        if RECORDS <= self.used {
            return Err(Refusal::ListFull);
        }
        Ok(())
    }

    // Check 9.
    #[tactic(auto, unfolding(window::specs::Refusals::withdraw_checks))]
    pub fn check_withdraw(self, number: u32) -> Result<(), Refusal>
        ensures { result ≡ first_refusal (withdraw_checks (held self.entry) number) }
    {
        if !self.holds(number) {
            return Err(Refusal::NotRegistered);
        }
        Ok(())
    }
}

impl Checked<'_> {
    // Check 11, with n readings taken and an answer table of this many places. Where there are places for all queries,
    // it is not asked how many are due.
    #[tactic(auto, using(crate::proofs::Verdicts::places_short, crate::proofs::Verdicts::places_enough, crate::proofs::Scans::due_few))]
    pub fn check_places(self, n: Count, places: usize) -> Result<(), Refusal>
        requires { n < count_limit }
        ensures { result ≡ first_refusal (places_checks n (held self.entry.queries) places) }
    {
        if ANSWER_PLACES * self.queries.used <= places {
            return Ok(());
        }
        if places < ANSWER_PLACES * self.due_count(n + 1) {
            return Err(Refusal::AnswersTooShort);
        }
        Ok(())
    }

    // Checks 10 and 11.
    #[tactic(auto, using(window::proofs::Refusals::count_passed, crate::proofs::Verdicts::reading_uncounted, crate::proofs::Verdicts::reading_counted))]
    pub fn check_reading(self, n: Count, places: usize) -> Result<(), Refusal>
        ensures { result ≡ first_refusal (reading_checks n (held self.entry.queries) places) }
    {
        check_count(n)?;
        self.check_places(n, places)
    }
}
