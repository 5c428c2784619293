// What is open closes, on the board.
ghost use Rattle.std.specs.Prelude.{◌≡◌, true};
ghost use Rattle.board.specs.Tables.{tables_long};
ghost use Rattle.board.specs.Lending.{lent_lists, SameSlices};
ghost use Rattle.engine.specs.Closings.{Ready, OpenClosed};

use crate::partial::Open;
use crate::state::State;
use board::tables::LentTables;
use window::count::Count;

impl State {
    // What is open closes, where it holds a reading.
    pub(crate) fn close_open(self, horizon: Count, tables: &mut LentTables<'_>) -> State
        requires { Ready self
            × (tables_long (lent_lists tables.old) ≡ true) }
        ensures same { SameSlices tables.old tables.new }
        ensures closed { OpenClosed self.partial horizon self (lent_lists tables.old) result (lent_lists tables.new) }
    {
        match self.partial {
            Open::Nothing | Open::Empty => self,
            Open::Holding(a) => State {
                partial: Open::Empty,
                board: self.board.close(a, horizon, tables),
                ..self
            },
        }
    }
}
