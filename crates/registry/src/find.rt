// Where a query stands in the list.
ghost use Rattle.std.specs.Prelude.{◌≡◌};
ghost use Rattle.window.specs.Refusals.{is_registered};
ghost use Rattle.registry.specs.Held.{held};
ghost use Rattle.registry.specs.Records.{place_of};

use crate::list::Queries;

impl Queries<'_> {
    // The place of the query with this number, from 0.
    pub fn find(self, number: u32) -> Option<usize>
        ensures { result ≡ place_of number (held self.entry) }
    {
        (0..self.used).position(|i| number == self.query(i).number)
    }

    // Whether a query with this number is registered.
    pub fn holds(self, number: u32) -> bool
        ensures { result ≡ is_registered number (held self.entry) }
    {
        self.find(number).is_some()
    }
}
