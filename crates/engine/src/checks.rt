// The checks of a call on entry: 1, 2, and then its own (document 01, "The calls and where each refuses").
ghost use Rattle.std.specs.Prelude.{◌≡◌, ◌≤◌, IfOk, Ok};
ghost use Rattle.window.specs.Queries.{horizon};
ghost use Rattle.window.specs.Refusals.{first_refusal, register_checks, withdraw_checks, reading_checks};
ghost use Rattle.registry.specs.Records.{used};
ghost use Rattle.board.specs.Lending.{shared_lists};
ghost use Rattle.engine.specs.Machine.{machine, machine_long};
ghost use Rattle.engine.specs.Outcomes.{verdict_in};
ghost use Rattle.engine.specs.States.{Judged, ListOf};

use crate::state::State;
use board::tables::SharedTables;
use registry::checks::check_list;
use registry::list::Checked;
use window::count::Count;
use window::query::Registration;
use window::refusal::Refusal;

// Checks 1 and 2. What passes is the list with the state's used records. Inlined, since else each call lays out its
// state and the slices of its tables in memory once more, for this function alone.
#[inline(always)]
pub(crate) fn judge_entry<'a>(
    state: State,
    list: &'a [u32],
    tables: SharedTables<'_>,
) -> Result<Checked<'a>, Refusal>
    ensures judged { Judged (machine_long (machine state list.now (shared_lists tables.entry))) state list.now (Ok tt) (verdict_in result) }
    ensures passed { IfOk result (ListOf state list.now) }
{
    if !tables.are_long() {
        return Err(Refusal::TableTooShort);
    }
    let checked = check_list(list, state.registered, state.count)?;
    if !state.fits() {
        return Err(Refusal::Damaged);
    }
    Ok(checked)
}

// Checks 1, 2 and 3 to 8, for the query that is to join. What passes is the horizon at its registration.
pub(crate) fn judge_register(
    state: State,
    list: &[u32],
    tables: SharedTables<'_>,
    asked: Registration,
) -> Result<Count, Refusal>
    ensures judged { Judged (machine_long (machine state list.now (shared_lists tables.entry))) state list.now
        (first_refusal (register_checks (used state.registered list.now) asked.number asked.kind asked.range asked.slide)) (verdict_in result) }
    ensures passed { IfOk result (λ h. h ≡ horizon state.count (used state.registered list.now)) }
{
    let queries = judge_entry(state, list, tables)?.queries;
    queries.check_register(asked)?;
    Ok(queries.horizon(state.count))
}

// Checks 1, 2 and 9.
pub(crate) fn judge_withdraw(
    state: State,
    list: &[u32],
    tables: SharedTables<'_>,
    number: u32,
) -> Result<(), Refusal>
    ensures { Judged (machine_long (machine state list.now (shared_lists tables.entry))) state list.now
        (first_refusal (withdraw_checks (used state.registered list.now) number)) result }
{
    let queries = judge_entry(state, list, tables)?.queries;
    queries.check_withdraw(number)
}

// Checks 1, 2, 10 and 11, for an answer table of so many places. What passes is the list with the state's used records.
pub(crate) fn judge_reading<'a>(
    state: State,
    list: &'a [u32],
    tables: SharedTables<'_>,
    places: usize,
) -> Result<Checked<'a>, Refusal>
    ensures judged { Judged (machine_long (machine state list.now (shared_lists tables.entry))) state list.now
        (first_refusal (reading_checks state.count (used state.registered list.now) places)) (verdict_in result) }
    ensures passed { IfOk result (ListOf state list.now) }
{
    let checked = judge_entry(state, list, tables)?;
    checked.check_reading(state.count, places)?;
    Ok(checked)
}
