// What a caller of the engine holds between two calls, and each call made on it.
ghost use Rattle.std.specs.Prelude.{length};
ghost use Rattle.board.specs.Lending.{lent_lists, SameSlices};
ghost use Rattle.lent.specs.Promises.{ReadingOnLent};
ghost use Rattle.demo.specs.Returns.{held, call_of, outcome_of, PerformsWith, KeepsTables};

use crate::script::Call;
use board::tables::LentTables;
use engine::calls::Tally;
use engine::state::State;
use lent::calls;
use registry::list::RECORDS;
use window::query::{Query, Registration};
use window::refusal::Refusal;

// The engine's state, the query list and the tables.
#[derive(Drop)]
pub struct Caller<'a> {
    pub state: State,
    pub queries: [Query; RECORDS],
    pub tables: LentTables<'a>,
}

// What an accepted call returned.
#[derive(Clone, Copy)]
pub enum Returned {
    // A start, a registration or a withdrawal.
    Zero,
    // How many answers a reading wrote.
    Answers(usize),
    Totals(Tally),
}

impl Caller<'_> {
    // Any call, a reading with this answer table.
    pub fn perform(&mut self, call: Call, answers: &mut [i64]) -> Result<Returned, Refusal>
        ensures same { SameSlices self.old.tables self.new.tables }
        ensures performed { PerformsWith answers.old answers.new (call_of (length answers.old) call)
            (held self.old) (outcome_of result answers.new) (held self.new) }
        ensures tables { KeepsTables call (lent_lists self.old.tables) (lent_lists self.new.tables) }
    {
        match call {
            Call::Start => {
                self.state = calls::start(&mut self.queries, &mut self.tables)?;
                Ok(Returned::Zero)
            }
            Call::Register(number, kind, range, slide) => {
                let asked = Registration {
                    number,
                    kind,
                    range,
                    slide,
                };
                self.state = calls::register(
                    self.state,
                    &mut self.queries,
                    &mut self.tables,
                    asked,
                )?;
                Ok(Returned::Zero)
            }
            Call::Withdraw(number) => {
                let tables = self.tables.shared();
                self.state = calls::withdraw(self.state, &mut self.queries, tables, number)?;
                Ok(Returned::Zero)
            }
            Call::Reading(value) => self.read(answers, value),
            Call::ReadingInto(value, _) => self.read(answers, value),
            Call::Totals => {
                let tables = self.tables.shared();
                let tally = calls::totals(self.state, &self.queries, tables)?;
                Ok(Returned::Totals(tally))
            }
        }
    }

    // A reading with this answer table.
    fn read(&mut self, answers: &mut [i64], value: i32) -> Result<Returned, Refusal>
        ensures same { SameSlices self.old.tables self.new.tables }
        ensures performed { ReadingOnLent value answers.old answers.new
            (held self.old) (outcome_of result answers.new) (held self.new) }
    {
        let taken = calls::reading(self.state, &self.queries, &mut self.tables, answers, value)?;
        self.state = taken.state;
        Ok(Returned::Answers(taken.answers))
    }
}
