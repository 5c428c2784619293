// The query list as the layer below is lent it: as numbers.
ghost use Rattle.std.specs.Prelude.{◌≡◌, ◌≤◌, length};
ghost use Rattle.registry.specs.Records.{record_limit, list_places};
ghost use Rattle.records.specs.Laid.{written, placed, laid};

use crate::copy::capped;
use registry::edit::insert;
use registry::list::{LIST_PLACES, RECORDS, put_query};
use window::query::Query;

// All 32 records are put into the numbers.
#[tactic(auto, unfolding(crate::specs::Laid::written))]
fn write_all(numbers: &mut [u32], list: [Query; RECORDS])
    requires { list_places ≤ length numbers.old }
    ensures { numbers.new ≡ written record_limit list numbers.old }
{
    for (i, q) in list.iter().enumerate() {
        put_query(numbers, i, *q);
    }
}

// The places of the first k records are put in order, one after the other.
#[tactic(auto, unfolding(crate::specs::Laid::placed))]
fn place_all(numbers: &mut [u32], k: usize)
    requires { (list_places ≤ length numbers.old) × (k ≤ record_limit) }
    ensures { numbers.new ≡ placed k numbers.old }
{
    for i in 0..k {
        insert(numbers, i);
    }
}

// The records of a list of which the first `count` are used, as numbers.
#[tactic(auto, unfolding(crate::specs::Laid::laid))]
pub fn laid(list: [Query; RECORDS], count: usize) -> [u32; LIST_PLACES]
    ensures { result ≡ laid count list }
{
    let mut numbers = [0; LIST_PLACES];
    write_all(&mut numbers, list);
    place_all(&mut numbers, capped(count));
    numbers
}
