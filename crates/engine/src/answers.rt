// The due queries are answered from the rings: no reading and no partial is gone through.
ghost use Rattle.std.specs.Prelude.{◌≡◌, true, List, map, ℕ, ◌+◌, ◌*◌, ◌≤◌, length};
ghost use Rattle.window.specs.Lists.{Each};
ghost use Rattle.window.specs.Queries.{Limits, window_start};
ghost use Rattle.window.specs.Refusals.{answer_places, due_at};
ghost use Rattle.window.specs.Calls.{Answer};
ghost use Rattle.registry.specs.Held.{held};
ghost use Rattle.board.specs.Tables.{tables_long};
ghost use Rattle.board.specs.Lending.{shared_lists};
ghost use Rattle.board.specs.Ledgers.{Ledger};
ghost use Rattle.board.specs.Boards.{Usable, Holds, HeadsEnsures};
ghost use Rattle.engine.specs.Answers.{answer_with, put_at, answered_places, value_in, answer_in, Backing};

use crate::state::State;
use board::heads::Heads;
use board::tables::SharedTables;
use registry::checks::ANSWER_PLACES;
use registry::list::Checked;
use window::count::Count;
use window::query::{Kind, Query};

// One answer is written: query number, kind, count of readings in the window, value.
fn put_answer(answers: &mut [i64], at: usize, q: Query, count: u32, value: i64)
    requires { at + answer_places ≤ length answers.old }
    ensures { answers.new ≡ put_at at (answer_with q count value) answers.old }
{
    answers[at] = i64::from(q.number);
    answers[at + 1] = i64::from(q.kind);
    answers[at + 2] = i64::from(count);
    answers[at + 3] = value;
}

impl State {
    // The value of the window of q at n, by its kind; that of a window that begins at the horizon is known.
    fn window_value(self, q: Query, horizon: Count, heads: Heads, tables: SharedTables<'_>) -> i64
        requires { Usable self.board × (q.origin ≤ self.count)
            × HeadsEnsures horizon self.board (shared_lists tables) heads
            × (tables_long (shared_lists tables) ≡ true) }
        ensures { (h : ℕ) (l : Ledger) → Holds h l self.board (shared_lists tables.entry) → h ≤ window_start self.count q
            → result ≡ value_in l.closed self.count q }
    {
        let n = self.count;
        if q.kind == Kind::Count as u32 {
            return i64::from(q.window_count(n));
        }
        let from = q.window_start(n);
        if from == horizon {
            return heads.value(q.kind);
        }
        self.board.value_from(q.kind, from, tables)
    }

    // The due queries of a list that passed check 2 are answered in registration order, four places each, from the first
    // place on. Returned is how many they are.
    pub(crate) fn answer_due(
        self,
        checked: Checked<'_>,
        horizon: Count,
        tables: SharedTables<'_>,
        answers: &mut [i64],
    ) -> usize
        requires { Usable self.board
            × Each (λ (q : Query). q.origin ≤ self.count) (held checked.queries)
            × (answer_places * length (due_at self.count (held checked.queries)) ≤ length answers.old)
            × (tables_long (shared_lists tables) ≡ true) }
        ensures count { result ≡ length (due_at self.count (held checked.entry.queries)) }
        ensures places { (given : List Answer) × (length given ≡ result) × (answers.new ≡ answered_places given answers.old)
            × ((x : Backing self.count (held checked.entry.queries) self.board (shared_lists tables.entry))
            → given ≡ map (answer_in x.ledger.closed self.count) (due_at self.count (held checked.entry.queries))) }
    {
        let n = self.count;
        let heads = self.board.heads(horizon, tables);
        let mut answered = 0;
        for i in 0..checked.queries.used {
            let q = checked.queries.query(i);
            if q.due(n) {
                let value = self.window_value(q, horizon, heads, tables);
                put_answer(
                    answers,
                    ANSWER_PLACES * answered,
                    q,
                    q.window_count(n),
                    value,
                );
                answered += 1;
            }
        }
        answered
    }
}
