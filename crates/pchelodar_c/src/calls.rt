// The five calls by their names in C, on lent slices of numbers alone, the query list as it stands: no allocation,
// nothing global. Each returns 0 where it is accepted, and else the number of the refusal.
ghost use Rattle.std.specs.Prelude.{◌≡◌};
ghost use Rattle.window.specs.Calls.{register, withdraw};
ghost use Rattle.board.specs.Tables.{tables};
ghost use Rattle.engine.specs.Promises.{StartEnsures, Ensures};
ghost use Rattle.pchelodar_c.specs.Slices.{slices};
ghost use Rattle.pchelodar_c.specs.Promises.{code_of, code_outcome, reading_code_outcome, totals_code_outcome, OnNumbers, ReadingOnNumbers, TotalsOnNumbers};

use crate::numbers;
use board::tables::{LentTables, SharedTables};
use window::count::Count;
use window::query::Registration;
use window::refusal::Refusal;

// What a call returns in C.
fn code(verdict: Result<(), Refusal>) -> u32
    ensures { result ≡ code_of verdict }
{
    match verdict {
        Ok(()) => 0,
        Err(refusal) => u32::from(refusal),
    }
}

// Start: everything empty. The state and the query list are written, and the first 4,096 places of each table become 0.
// Refused with 1.
#[unsafe(no_mangle)]
pub extern "C" fn pchelodar_start(
    state: &mut [u64],
    queries: &mut [u32],
    starts: &mut [Count],
    sums: &mut [i64],
    max_starts: &mut [Count],
    max_values: &mut [i32],
    min_starts: &mut [Count],
    min_values: &mut [i32],
) -> u32
    ensures { OnNumbers StartEnsures
        (slices state.old queries.old (tables starts.old sums.old max_starts.old max_values.old min_starts.old min_values.old))
        (code_outcome result)
        (slices state.new queries.new (tables starts.new sums.new max_starts.new max_values.new min_starts.new min_values.new)) }
{
    let mut tables = LentTables {
        starts,
        sums,
        max_starts,
        max_values,
        min_starts,
        min_values,
    };
    code(numbers::start(state, queries, &mut tables))
}

// Register: the query joins the list with g = n. Refused with 1 to 8.
#[unsafe(no_mangle)]
pub extern "C" fn pchelodar_register(
    state: &mut [u64],
    queries: &mut [u32],
    starts: &mut [Count],
    sums: &mut [i64],
    max_starts: &mut [Count],
    max_values: &mut [i32],
    min_starts: &mut [Count],
    min_values: &mut [i32],
    number: u32,
    kind: u32,
    range: u32,
    slide: u32,
) -> u32
    ensures { OnNumbers (Ensures (register number kind range slide))
        (slices state.old queries.old (tables starts.old sums.old max_starts.old max_values.old min_starts.old min_values.old))
        (code_outcome result)
        (slices state.new queries.new (tables starts.new sums.new max_starts.new max_values.new min_starts.new min_values.new)) }
{
    let mut tables = LentTables {
        starts,
        sums,
        max_starts,
        max_values,
        min_starts,
        min_values,
    };
    let asked = Registration {
        number,
        kind,
        range,
        slide,
    };
    code(numbers::register(state, queries, &mut tables, asked))
}

// Withdraw: the query leaves, the others keep their order. Refused with 1, 2 and 9.
#[unsafe(no_mangle)]
pub extern "C" fn pchelodar_withdraw(
    state: &mut [u64],
    queries: &mut [u32],
    starts: &[Count],
    sums: &[i64],
    max_starts: &[Count],
    max_values: &[i32],
    min_starts: &[Count],
    min_values: &[i32],
    number: u32,
) -> u32
    ensures { OnNumbers (Ensures (withdraw number))
        (slices state.old queries.old (tables starts.now sums.now max_starts.now max_values.now min_starts.now min_values.now))
        (code_outcome result)
        (slices state.new queries.new (tables starts.now sums.now max_starts.now max_values.now min_starts.now min_values.now)) }
{
    let tables = SharedTables {
        starts,
        sums,
        max_starts,
        max_values,
        min_starts,
        min_values,
    };
    code(numbers::withdraw(state, queries, tables, number))
}

// Reading: it joins the readings, and the due queries are answered, four places each, from the first place on. Refused
// with 1, 2, 10 and 11.
#[unsafe(no_mangle)]
pub extern "C" fn pchelodar_reading(
    state: &mut [u64],
    queries: &[u32],
    starts: &mut [Count],
    sums: &mut [i64],
    max_starts: &mut [Count],
    max_values: &mut [i32],
    min_starts: &mut [Count],
    min_values: &mut [i32],
    answers: &mut [i64],
    answered: &mut usize,
    value: i32,
) -> u32
    ensures { ReadingOnNumbers value answers.old answers.new answered.old answered.new
        (slices state.old queries.now (tables starts.old sums.old max_starts.old max_values.old min_starts.old min_values.old))
        (reading_code_outcome result answered.new answers.new)
        (slices state.new queries.now (tables starts.new sums.new max_starts.new max_values.new min_starts.new min_values.new)) }
{
    let mut tables = LentTables {
        starts,
        sums,
        max_starts,
        max_values,
        min_starts,
        min_values,
    };
    match numbers::reading(state, queries, &mut tables, answers, value) {
        Ok(count) => {
            *answered = count;
            0
        }
        Err(refusal) => u32::from(refusal),
    }
}

// Totals: n, P, M and N are written, changing nothing else. Refused with 1 and 2.
#[unsafe(no_mangle)]
pub extern "C" fn pchelodar_totals(
    state: &[u64],
    queries: &[u32],
    starts: &[Count],
    sums: &[i64],
    max_starts: &[Count],
    max_values: &[i32],
    min_starts: &[Count],
    min_values: &[i32],
    totals: &mut [u64; 4],
) -> u32
    ensures { TotalsOnNumbers totals.old totals.new
        (slices state.now queries.now (tables starts.now sums.now max_starts.now max_values.now min_starts.now min_values.now))
        (totals_code_outcome result totals.new) }
{
    let tables = SharedTables {
        starts,
        sums,
        max_starts,
        max_values,
        min_starts,
        min_values,
    };
    match numbers::totals(state, queries, tables) {
        Ok(tally) => {
            *totals = [
                u64::from(tally.count),
                u64::from(tally.closed),
                tally.max_comparisons,
                tally.min_comparisons,
            ];
            0
        }
        Err(refusal) => u32::from(refusal),
    }
}
