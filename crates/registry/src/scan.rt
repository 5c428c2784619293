// A look at every registered query: edges, the horizon, the due queries.
ghost use Rattle.std.specs.Prelude.{◌≡◌, ◌≤◌, length};
ghost use Rattle.window.specs.declared.query.Query.{Query};
ghost use Rattle.window.specs.Lists.{any, Each};
ghost use Rattle.window.specs.Queries.{edge, horizon};
ghost use Rattle.window.specs.Refusals.{due_at};
ghost use Rattle.registry.specs.Held.{held};
ghost use Rattle.registry.specs.Records.{record_limit};

use crate::list::{Checked, Queries};
use window::count::Count;

impl Queries<'_> {
    // The horizon of the queries at n: the least start of a window.
    pub fn horizon(self, n: Count) -> Count
        requires { Each (λ (q : Query). q.origin ≤ n) (held self) }
        ensures { result ≡ horizon n (held self.entry) }
    {
        (0..self.used)
            .map(|i| self.query(i).window_start(n))
            .fold(n, Count::min)
    }
}

impl Checked<'_> {
    // Whether a window of one of the queries can end or begin at m.
    pub fn any_edge(self, m: Count) -> bool
        ensures { result ≡ any (edge m) (held self.entry.queries) }
    {
        (0..self.queries.used).any(|i| self.queries.query(i).edge(m))
    }

    // How many of the queries are due at n.
    pub fn due_count(self, n: Count) -> usize
        ensures few { result ≤ record_limit }
        ensures due { result ≡ length (due_at n (held self.entry.queries)) }
    {
        (0..self.queries.used)
            .filter(|i| self.queries.query(*i).due(n))
            .count()
    }
}
