// The values of a window that begins at the horizon: worked out once for all of them.
ghost use Rattle.std.specs.Prelude.{◌≡◌};
ghost use Rattle.board.specs.Boards.{head_value};

use window::query::Kind;

// The value of each kind over all that is closed and starts at the horizon or later; 0 where nothing is.
#[derive(Clone, Copy)]
pub struct Heads {
    pub sum: i64,
    pub maximum: i32,
    pub minimum: i32,
}

impl Heads {
    // That of a kind, which counts as the minimum where it is neither the sum nor the maximum.
    #[tactic(auto, unfolding(crate::specs::Boards::head_value))]
    pub fn value(self, kind: u32) -> i64
        ensures { result ≡ head_value kind self }
    {
        if kind == Kind::Sum as u32 {
            return self.sum;
        }
        if kind == Kind::Maximum as u32 {
            return i64::from(self.maximum);
        }
        i64::from(self.minimum)
    }
}
