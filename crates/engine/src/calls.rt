// The open calls (document 01, "The calls and where each refuses"). The state goes in by value: an accepted call hands
// back the state after it, and where a call is refused the caller's own is as it was, as are list, tables and answers.
ghost use Rattle.std.specs.Prelude.{◌≡◌};
ghost use Rattle.window.specs.Calls.{start, register, withdraw, reading, totals};
ghost use Rattle.board.specs.Lending.{lent_lists, shared_lists, SameSlices};
ghost use Rattle.engine.specs.declared.state.State.{State};
ghost use Rattle.engine.specs.Machine.{machine};
ghost use Rattle.engine.specs.Outcomes.{state_outcome, state_after, answers_written, reading_outcome, reading_state, tally_of, totals_outcome};
ghost use Rattle.engine.specs.Promises.{StartEnsures, Ensures, ReadingEnsures};

use crate::checks::{judge_entry, judge_reading, judge_register, judge_withdraw};
use crate::state::State;
use board::tables::{LentTables, SharedTables};
use registry::edit;
use registry::list::LIST_PLACES;
use window::count::Count;
use window::query::Registration;
use window::refusal::Refusal;

// What an accepted reading comes to: the state after it, and how many answers were written.
#[derive(Clone, Copy)]
pub struct Answered {
    pub state: State,
    pub answers: usize,
}

// What totals returns.
#[derive(Clone, Copy, Debug, PartialEq, Eq)]
pub struct Tally {
    // n
    pub count: Count,
    // P
    pub closed: Count,
    // M
    pub max_comparisons: u64,
    // N
    pub min_comparisons: u64,
}

impl State {
    // Its n, P, M and N.
    pub fn tally(self) -> Tally
        ensures { result ≡ tally_of self }
    {
        Tally {
            count: self.count,
            closed: self.board.closed,
            max_comparisons: self.board.maxima.comparisons,
            min_comparisons: self.board.minima.comparisons,
        }
    }
}

// Start: everything empty. The query list and the first 4,096 places of each table become 0. It is promised for
// whatever state the caller had.
pub fn start(list: &mut [u32], tables: &mut LentTables<'_>) -> Result<State, Refusal>
    ensures same { SameSlices tables.old tables.new }
    ensures called { (state : State) → StartEnsures
        (machine state list.old (lent_lists tables.old))
        (state_outcome result)
        (machine (state_after state result) list.new (lent_lists tables.new)) }
{
    if list.len() < LIST_PLACES || !tables.shared().are_long() {
        return Err(Refusal::TableTooShort);
    }
    tables.zero();
    edit::clear(list, 0);
    Ok(State::fresh())
}

// Register: the query joins the list with g = n. An open partial that holds a reading closes first.
pub fn register(
    state: State,
    list: &mut [u32],
    tables: &mut LentTables<'_>,
    asked: Registration,
) -> Result<State, Refusal>
    ensures same { SameSlices tables.old tables.new }
    ensures called { Ensures (register asked.number asked.kind asked.range asked.slide)
        (machine state list.old (lent_lists tables.old))
        (state_outcome result)
        (machine (state_after state result) list.new (lent_lists tables.new)) }
{
    let horizon = judge_register(state, list, tables.shared(), asked)?;
    let closed = state.close_open(horizon, tables);
    edit::append(list, state.registered, asked.at(state.count));
    Ok(closed.with_one_more())
}

// Withdraw: the query leaves, the others keep their order. With none left, what is open is dropped unclosed.
pub fn withdraw(
    state: State,
    list: &mut [u32],
    tables: SharedTables<'_>,
    number: u32,
) -> Result<State, Refusal>
    ensures { Ensures (withdraw number)
        (machine state list.old (shared_lists tables.entry))
        (state_outcome result)
        (machine (state_after state result) list.new (shared_lists tables.entry)) }
{
    judge_withdraw(state, list, tables, number)?;
    let left = edit::withdraw(list, state.registered, number);
    Ok(state.left_with(left))
}

// Totals: n, P, M and N, changing nothing.
pub fn totals(state: State, list: &[u32], tables: SharedTables<'_>) -> Result<Tally, Refusal>
    ensures { Ensures totals
        (machine state list.now (shared_lists tables.entry))
        (totals_outcome result)
        (machine state list.now (shared_lists tables.entry)) }
{
    judge_entry(state, list, tables)?;
    Ok(state.tally())
}

// Reading: it joins the readings, and that is all where no query has an edge. At an edge what is open closes, and the
// due queries are answered.
pub fn reading(
    state: State,
    list: &[u32],
    tables: &mut LentTables<'_>,
    answers: &mut [i64],
    value: i32,
) -> Result<Answered, Refusal>
    ensures same { SameSlices tables.old tables.new }
    ensures called { ReadingEnsures value answers.old answers.new
        (machine state list.now (lent_lists tables.old))
        (reading_outcome (answers_written result) answers.new)
        (machine (reading_state state result) list.now (lent_lists tables.new)) }
{
    let checked = judge_reading(state, list, tables.shared(), answers.len())?;
    let taken = state.with_reading(value);
    if !checked.any_edge(taken.count) {
        return Ok(Answered {
            state: taken,
            answers: 0,
        });
    }
    let horizon = checked.queries.horizon(taken.count);
    let closed = taken.close_open(horizon, tables);
    let answers = closed.answer_due(checked, horizon, tables.shared(), answers);
    Ok(Answered {
        state: closed,
        answers,
    })
}
