// The lent query list (document 01, "The board"): find, append and withdraw, on the caller's records themselves.
ghost use Rattle.std.specs.Prelude.{◌≡◌, ◌≤◌, length, take};
ghost use Rattle.registry.specs.Records.{place_of};
ghost use Rattle.records.specs.LentList.{used_of, appended, appended_count, without, withdrawn, withdrawn_count};

use crate::copy::{capped, fitting};
use registry::list::RECORDS;
use window::query::Query;

// The place of the first record with this number among the used ones, the first `count`.
pub fn find(queries: &[Query], count: usize, number: u32) -> Option<usize>
    ensures { result ≡ place_of number (used_of count queries.now) }
{
    queries
        .iter()
        .take(RECORDS)
        .take(count)
        .position(|q| number == q.number)
}

// A record joins after the used ones, where there is a place for it. What is returned is how many are used then: one
// more, or the count as it was given where there is no place.
pub fn append(queries: &mut [Query], count: usize, q: Query) -> usize
    ensures { (result ≡ appended_count count queries.old) × (queries.new ≡ appended count q queries.old) }
{
    if capped(queries.len()) <= count {
        return count;
    }
    queries[count] = q;
    count + 1
}

// The records that do not have this number move to the front, in their order. What is returned is how many they are.
fn retain_others(records: &mut [Query], number: u32) -> usize
    ensures few { result ≤ length records.old }
    ensures retained { take result records.new ≡ without number records.old }
{
    let mut kept = 0;
    for i in 0..records.len() {
        let q = records[i];
        if number != q.number {
            records[kept] = q;
            kept += 1;
        }
    }
    kept
}

// What has this number leaves the used records, if it is among them: the others keep their order, and every record
// after them becomes 0, up to the 32nd. What is returned is how many are used then; where nothing leaves, nothing
// changes, and it is the count as it was given.
#[tactic(auto, using(crate::proofs::Editing::registered_place))]
pub fn withdraw(queries: &mut [Query], count: usize, number: u32) -> usize
    ensures { (result ≡ withdrawn_count number count queries.old) × (queries.new ≡ withdrawn number count queries.old) }
{
    if find(queries, count, number).is_none() {
        return count;
    }
    let places = capped(queries.len());
    let used = fitting(queries.len(), count);
    let kept = retain_others(&mut queries[..used], number);
    queries[kept..places].fill(Query::default());
    kept
}
