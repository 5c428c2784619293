// What a line asks of the engine.
ghost use Rattle.board.specs.Lending.{lent_lists, SameSlices};
ghost use Rattle.engine.specs.Machine.{machine};
ghost use Rattle.engine.specs.Outcomes.{answers_written, reading_state};
ghost use Rattle.session.specs.Promises.{CallEnsures};

use crate::report::ANSWER_TABLE;
use board::tables::LentTables;
use engine::calls::{Answered, reading, register, withdraw};
use engine::state::State;
use parse::line::Line;
use window::refusal::Refusal;

// The call that a line asks for, which leaves the state that it came to; a line that is refused makes none. An accepted
// registration or withdrawal has no answers.
pub(crate) fn call(
    state: State,
    list: &mut [u32],
    tables: &mut LentTables<'_>,
    answers: &mut [i64; ANSWER_TABLE],
    asked: Result<Line, Refusal>,
) -> Result<Answered, Refusal>
    ensures same { SameSlices tables.old tables.new }
    ensures called { CallEnsures asked
        (machine state list.old (lent_lists tables.old))
        (answers_written result) answers.new
        (machine (reading_state state result) list.new (lent_lists tables.new)) }
{
    let state = match asked? {
        Line::Register(registration) => register(state, list, tables, registration)?,
        Line::Withdraw { number } => withdraw(state, list, tables.shared(), number)?,
        Line::Reading { value } => return reading(state, list, tables, answers, value),
    };
    Ok(Answered { state, answers: 0 })
}
