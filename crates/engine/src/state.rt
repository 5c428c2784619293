// The engine's state: it goes in by value and comes back.
ghost use Rattle.std.specs.Prelude.{◌≡◌, ◌↔◌, IsTrue, ◌<◌};
ghost use Rattle.window.specs.Queries.{count_limit};
ghost use Rattle.registry.specs.Records.{record_limit};
ghost use Rattle.engine.specs.States.{Sound, with_reading, with_one_more, left_with, FreshState};

use crate::partial::Open;
use board::board::Board;
use window::count::Count;

// What the engine knows between two calls, beside the query list and the lent tables.
#[derive(Clone, Copy)]
pub struct State {
    // Document 01's n: the count of accepted readings since the start.
    pub count: Count,
    // How many queries are registered: the used records of the query list.
    pub registered: usize,
    // The open partial.
    pub partial: Open,
    // The closed partials, with P, M and N.
    pub board: Board,
}

impl State {
    // The state of a fresh engine.
    pub fn fresh() -> State
        ensures { FreshState result }
    {
        State {
            count: 0,
            registered: 0,
            partial: Open::Nothing,
            board: Board::empty(),
        }
    }

    // Check 2 on the state: whether it can be used.
    pub(crate) fn fits(self) -> bool
        ensures { IsTrue result ↔ Sound self }
    {
        self.board.closed <= self.count
            && self.board.fits()
            && self.partial.fits(self.count, self.board.closed)
    }

    // With one reading more: n grows by one, and the reading joins the open partial.
    pub(crate) fn with_reading(self, value: i32) -> State
        requires { Sound self × (self.count < count_limit) }
        ensures { result ≡ with_reading value self }
    {
        State {
            count: self.count + 1,
            partial: self.partial.extended(self.count, value),
            ..self
        }
    }

    // With one query more, and an empty partial open.
    pub(crate) fn with_one_more(self) -> State
        requires { self.registered < record_limit }
        ensures { result ≡ with_one_more self }
    {
        State {
            registered: self.registered + 1,
            partial: Open::Empty,
            ..self
        }
    }

    // With so many queries left: with none, what is open is dropped unclosed.
    pub(crate) fn left_with(self, left: usize) -> State
        ensures { result ≡ left_with left self }
    {
        State {
            registered: left,
            partial: self.partial.while_any(left),
            ..self
        }
    }
}
