// A query joins the list, one leaves it, and the list is emptied, in place.
ghost use Rattle.std.specs.Prelude.{◌≡◌, suc, ◌+◌, ◌<◌, ◌≤◌, ◌∷◌, ◌++◌, length, take, drop};
ghost use Rattle.registry.specs.Records.{record_limit, order_at, list_places, order, rank, inserted};
ghost use Rattle.registry.specs.Edits.{PlacesIn, appended, Appended, Withdrawn, Cleared};

use crate::list::{LIST_PLACES, ORDER, QUERY_NUMBERS, Queries, put_query};
use std::mem::replace;
use window::query::Query;

impl Queries<'_> {
    // How many of the places by ascending number come before the first whose number is not less than this one.
    fn rank(self, number: u32) -> usize
        requires { PlacesIn self.used self.list.now }
        ensures { (result ≡ rank number self.entry.list.now (order self.entry.used self.entry.list.now)) × (result ≤ self.entry.used) }
    {
        self.list[ORDER..ORDER + self.used]
            .iter()
            .take_while(|place| self.query(**place as usize).number < number)
            .count()
    }
}

// The place k comes behind the first r of the places by ascending number, and before the others of the first k.
fn put_place(list: &mut [u32], k: usize, r: usize)
    requires { (list_places ≤ length list.old) × (k < record_limit) × (r ≤ k) }
    ensures { list.new
        ≡ take order_at list.old ++ (take r (order k list.old) ++ k ∷ drop r (order k list.old)) ++ drop (order_at + suc k) list.old }
{
    let mut carried = k as u32;
    for j in r..k + 1 {
        carried = replace(&mut list[ORDER + j], carried);
    }
}

// The place of record k joins those of the first k.
#[tactic(auto, using(crate::proofs::Joining::inserted_at))]
pub fn insert(list: &mut [u32], k: usize)
    requires { (list_places ≤ length list.old) × (k < record_limit) × PlacesIn k list.old }
    ensures { list.new ≡ inserted k list.old }
{
    let queries = Queries { list, used: k };
    let r = queries.rank(queries.query(k).number);
    put_place(list, k, r);
}

// The query joins behind the first k.
pub fn append(list: &mut [u32], k: usize, q: Query)
    requires { (list_places ≤ length list.old) × (k < record_limit) × PlacesIn k list.old }
    ensures is { list.new ≡ appended k q list.old }
    ensures appended { Appended k q list.old list.new }
{
    put_query(list, k, q);
    insert(list, k);
}

// The records and places from the k-th on become 0.
pub fn clear(list: &mut [u32], k: usize)
    requires { (list_places ≤ length list.old) × (k ≤ record_limit) }
    ensures { Cleared k list.old list.new }
{
    list[QUERY_NUMBERS * k..ORDER].fill(0);
    list[ORDER + k..LIST_PLACES].fill(0);
}

// The query with this number leaves the first k: the others join anew, one after the other, each at its place or an
// earlier one, and what they leave is 0. Returned is how many they are.
pub fn withdraw(list: &mut [u32], k: usize, number: u32) -> usize
    requires { (list_places ≤ length list.old) × (k ≤ record_limit) }
    ensures { Withdrawn number k list.old result list.new }
{
    let mut kept = 0;
    for i in 0..k {
        let q = Queries { list, used: k }.query(i);
        if number != q.number {
            append(list, kept, q);
            kept += 1;
        }
    }
    clear(list, kept);
    kept
}
