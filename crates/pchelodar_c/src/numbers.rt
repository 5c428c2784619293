// The five calls with the state and the query list lent as numbers: the engine's, on the state that the numbers are read
// as. Where a call is accepted the state after it is written back; where it is refused nothing is written.
ghost use Rattle.std.specs.Prelude.{◌≡◌, ◌≤◌, ◌<◌, length, take, MatchResult};
ghost use Rattle.window.specs.Calls.{register, withdraw, totals};
ghost use Rattle.board.specs.Lending.{lent_lists, shared_lists, SameSlices};
ghost use Rattle.engine.specs.Outcomes.{reading_outcome, totals_outcome};
ghost use Rattle.engine.specs.Promises.{StartEnsures, Ensures, ReadingEnsures, places_after};
ghost use Rattle.encoding.specs.Written.{state_numbers, state_of};
ghost use Rattle.pchelodar_c.specs.Slices.{slices};
ghost use Rattle.pchelodar_c.specs.Promises.{code_of, code_outcome, OnNumbers};

use board::tables::{LentTables, SharedTables};
use encoding::state::{STATE_NUMBERS, load_state, store_state};
use engine::calls;
use engine::calls::Tally;
use engine::state::State;
use window::query::Registration;
use window::refusal::Refusal;

// Check 1 on the numbers of a state: whether there is room for them.
fn check_room(state: &[u64]) -> Result<(), Refusal>
    ensures { MatchResult result
        (λ _. state_numbers ≤ length state.now)
        (λ refusal. (length state.now < state_numbers) × (refusal ≡ Refusal.TableTooShort)) }
{
    if state.len() < STATE_NUMBERS {
        return Err(Refusal::TableTooShort);
    }
    Ok(())
}

// The state that the numbers are read as, where there is room for one. Inlined, so that it is not copied to its caller.
#[inline(always)]
fn state_in(state: &[u64]) -> Result<State, Refusal>
    ensures { MatchResult result
        (λ st. (state_numbers ≤ length state.now) × (st ≡ state_of (take state_numbers state.now)))
        (λ refusal. (length state.now < state_numbers) × (refusal ≡ Refusal.TableTooShort)) }
{
    check_room(state)?;
    Ok(load_state(state))
}

// Start: everything empty. The state and the query list are written, and the first 4,096 places of each table become 0.
pub(crate) fn start(
    state: &mut [u64],
    queries: &mut [u32],
    tables: &mut LentTables<'_>,
) -> Result<(), Refusal>
    ensures same { SameSlices tables.old tables.new }
    ensures called { OnNumbers StartEnsures
        (slices state.old queries.old (lent_lists tables.old))
        (code_outcome (code_of result))
        (slices state.new queries.new (lent_lists tables.new)) }
{
    check_room(state)?;
    let fresh = calls::start(queries, tables)?;
    store_state(state, fresh);
    Ok(())
}

// Register: the query joins the list with g = n.
pub(crate) fn register(
    state: &mut [u64],
    queries: &mut [u32],
    tables: &mut LentTables<'_>,
    asked: Registration,
) -> Result<(), Refusal>
    ensures same { SameSlices tables.old tables.new }
    ensures called { OnNumbers (Ensures (register asked.number asked.kind asked.range asked.slide))
        (slices state.old queries.old (lent_lists tables.old))
        (code_outcome (code_of result))
        (slices state.new queries.new (lent_lists tables.new)) }
{
    let before = state_in(state)?;
    let after = calls::register(before, queries, tables, asked)?;
    store_state(state, after);
    Ok(())
}

// Withdraw: the query leaves, the others keep their order.
pub(crate) fn withdraw(
    state: &mut [u64],
    queries: &mut [u32],
    tables: SharedTables<'_>,
    number: u32,
) -> Result<(), Refusal>
    ensures { OnNumbers (Ensures (withdraw number))
        (slices state.old queries.old (shared_lists tables.entry))
        (code_outcome (code_of result))
        (slices state.new queries.new (shared_lists tables.entry)) }
{
    let before = state_in(state)?;
    let after = calls::withdraw(before, queries, tables, number)?;
    store_state(state, after);
    Ok(())
}

// Reading: it joins the readings, and the due queries are answered, four places each, from the first place on. Returned
// is how many they are.
pub(crate) fn reading(
    state: &mut [u64],
    queries: &[u32],
    tables: &mut LentTables<'_>,
    answers: &mut [i64],
    value: i32,
) -> Result<usize, Refusal>
    ensures same { SameSlices tables.old tables.new }
    ensures called { OnNumbers (ReadingEnsures value answers.old answers.new)
        (slices state.old queries.now (lent_lists tables.old))
        (reading_outcome result answers.new)
        (slices state.new queries.now (lent_lists tables.new)) }
    ensures places { answers.new ≡ places_after (reading_outcome result answers.new) answers.old }
{
    let before = state_in(state)?;
    let read = calls::reading(before, queries, tables, answers, value)?;
    store_state(state, read.state);
    Ok(read.answers)
}

// Totals: n, P, M and N, changing nothing.
pub(crate) fn totals(
    state: &[u64],
    queries: &[u32],
    tables: SharedTables<'_>,
) -> Result<Tally, Refusal>
    ensures { OnNumbers (Ensures totals)
        (slices state.now queries.now (shared_lists tables.entry))
        (totals_outcome result)
        (slices state.now queries.now (shared_lists tables.entry)) }
{
    calls::totals(state_in(state)?, queries, tables)
}
