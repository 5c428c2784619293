// The first 32 records of the lent query list, copied to an array and put back.
ghost use Rattle.std.specs.Prelude.{◌≡◌, min, take, replicate};
ghost use Rattle.registry.specs.Records.{record_limit, unused};
ghost use Rattle.records.specs.LentList.{first_records, overwritten};

use registry::list::RECORDS;
use window::query::Query;

// An array of unused records. A record that is not used is the default one: all 0.
pub fn none() -> [Query; RECORDS]
    ensures { result ≡ replicate record_limit unused }
{
    [Query::default(); RECORDS]
}

// How many of n places are among the first 32.
pub(crate) fn capped(n: usize) -> usize
    ensures { result ≡ min n record_limit }
{
    n.min(RECORDS)
}

// How many of m records a list of n places takes.
pub(crate) fn fitting(n: usize, m: usize) -> usize
    ensures { result ≡ min (min n record_limit) m }
{
    capped(n).min(m)
}

// The first 32 records of a lent list, in an array.
#[tactic(auto, using(crate::proofs::Lists::first_parts))]
pub fn load(queries: &[Query]) -> [Query; RECORDS]
    ensures { result ≡ first_records queries.now }
{
    let n = capped(queries.len());
    let mut list = none();
    list[..n].copy_from_slice(&queries[..n]);
    list
}

// The first m records of the array are written to the lent list, as far as it goes. With m = 0 none is written.
#[tactic(auto, using(crate::proofs::Lists::array_parts))]
pub fn store(queries: &mut [Query], list: [Query; RECORDS], m: usize)
    ensures { queries.new ≡ overwritten (take m list) queries.old }
{
    let n = fitting(queries.len(), m);
    queries[..n].copy_from_slice(&list[..n]);
}
