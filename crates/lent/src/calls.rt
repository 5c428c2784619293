// The open calls with the query list lent as records (document 01, "The board" and "The calls and where each refuses").
// Each is the engine's call on the first 32 records, laid out as numbers. Where it is accepted the lent list is then
// changed in place; where it is refused the caller's own state is as it was, as are records, tables and answers.
ghost use Rattle.std.specs.Prelude.{◌≡◌, ◌<◌, ◌≤◌, length, take, MatchResult};
ghost use Rattle.window.specs.Calls.{register, withdraw, totals};
ghost use Rattle.registry.specs.Records.{record_limit};
ghost use Rattle.records.specs.Laid.{laid};
ghost use Rattle.board.specs.Lending.{lent_lists, shared_lists, SameSlices};
ghost use Rattle.engine.specs.declared.state.State.{State};
ghost use Rattle.engine.specs.Outcomes.{state_outcome, state_after, answers_written, reading_outcome, reading_state, totals_outcome};
ghost use Rattle.engine.specs.Promises.{StartEnsures, Ensures};
ghost use Rattle.lent.specs.Lent.{lent};
ghost use Rattle.lent.specs.Promises.{OnLent, ReadingOnLent};

use board::tables::{LentTables, SharedTables};
use engine::calls;
use engine::calls::{Answered, Tally};
use engine::state::State;
use records::copy::{load, none, store};
use records::laid::laid;
use records::list;
use registry::list::{LIST_PLACES, RECORDS};
use window::query::{Query, Registration};
use window::refusal::Refusal;

// The first 32 records of a lent list as numbers, of which so many records are used. A list of fewer is too short.
fn lay(queries: &[Query], registered: usize) -> Result<[u32; LIST_PLACES], Refusal>
    ensures { MatchResult result
        (λ numbers. (record_limit ≤ length queries.now) × (numbers ≡ laid registered (take record_limit queries.now)))
        (λ refusal. (length queries.now < record_limit) × (refusal ≡ Refusal.TableTooShort)) }
{
    if queries.len() < RECORDS {
        return Err(Refusal::TableTooShort);
    }
    Ok(laid(load(queries), registered))
}

// Start: everything empty. The first 4,096 places of each table and the first 32 records become 0. It is promised for
// whatever state the caller had.
pub fn start(queries: &mut [Query], tables: &mut LentTables<'_>) -> Result<State, Refusal>
    ensures same { SameSlices tables.old tables.new }
    ensures called { (state : State) → OnLent StartEnsures
        (lent state queries.old (lent_lists tables.old))
        (state_outcome result)
        (lent (state_after state result) queries.new (lent_lists tables.new)) }
{
    let mut numbers = lay(queries, 0)?;
    let next = calls::start(&mut numbers, tables)?;
    store(queries, none(), RECORDS);
    Ok(next)
}

// Register: the query joins the list with g = n. An open partial that holds a reading closes first.
pub fn register(
    state: State,
    queries: &mut [Query],
    tables: &mut LentTables<'_>,
    asked: Registration,
) -> Result<State, Refusal>
    ensures same { SameSlices tables.old tables.new }
    ensures called { OnLent (Ensures (register asked.number asked.kind asked.range asked.slide))
        (lent state queries.old (lent_lists tables.old))
        (state_outcome result)
        (lent (state_after state result) queries.new (lent_lists tables.new)) }
{
    let mut numbers = lay(queries, state.registered)?;
    let next = calls::register(state, &mut numbers, tables, asked)?;
    list::append(queries, state.registered, asked.at(state.count));
    Ok(next)
}

// Withdraw: the query leaves, the others keep their order. With none left, what is open is dropped unclosed.
pub fn withdraw(
    state: State,
    queries: &mut [Query],
    tables: SharedTables<'_>,
    number: u32,
) -> Result<State, Refusal>
    ensures { OnLent (Ensures (withdraw number))
        (lent state queries.old (shared_lists tables.entry))
        (state_outcome result)
        (lent (state_after state result) queries.new (shared_lists tables.entry)) }
{
    let mut numbers = lay(queries, state.registered)?;
    let next = calls::withdraw(state, &mut numbers, tables, number)?;
    list::withdraw(queries, state.registered, number);
    Ok(next)
}

// Reading: it joins the readings. At an edge what is open closes, and the due queries are answered. No record changes.
pub fn reading(
    state: State,
    queries: &[Query],
    tables: &mut LentTables<'_>,
    answers: &mut [i64],
    value: i32,
) -> Result<Answered, Refusal>
    ensures same { SameSlices tables.old tables.new }
    ensures called { ReadingOnLent value answers.old answers.new
        (lent state queries.now (lent_lists tables.old))
        (reading_outcome (answers_written result) answers.new)
        (lent (reading_state state result) queries.now (lent_lists tables.new)) }
{
    let numbers = lay(queries, state.registered)?;
    calls::reading(state, &numbers, tables, answers, value)
}

// Totals: n, P, M and N, changing nothing.
pub fn totals(state: State, queries: &[Query], tables: SharedTables<'_>) -> Result<Tally, Refusal>
    ensures { OnLent (Ensures totals)
        (lent state queries.now (shared_lists tables.entry))
        (totals_outcome result)
        (lent state queries.now (shared_lists tables.entry)) }
{
    let numbers = lay(queries, state.registered)?;
    calls::totals(state, &numbers, tables)
}
