// The fields of many records, tested at once (check 2).
ghost use Rattle.std.specs.Prelude.{◌≡◌, not, ◌||◌};
ghost use Rattle.registry.specs.Fields.{fields_outside, bits_outside, FieldJoined};

use window::query::{KIND_LIMIT, LENGTH_LIMIT, NUMBER_LIMIT, Query};

// The bits that the numbers, the kinds, the ranges and the slides of some records have, each field less 1 (0 less 1 has
// all bits). The limit of kinds, ranges and slides is a power of 2: so their bits tell whether one of them is outside 1
// to it, and those of the numbers whether one is outside 1 to 65,536. With all four the compiler takes the fields of a
// record at once.
#[derive(Clone, Copy, Default)]
pub(crate) struct Bits {
    pub number: u32,
    pub kind: u32,
    pub range: u32,
    pub slide: u32,
}

// The bits with those of one field more.
#[tactic(auto, using(crate::proofs::Masks::field_joined))]
fn with_field(bits: u32, field: u32) -> u32
    ensures { FieldJoined bits field result }
{
    bits | field.wrapping_sub(1)
}

impl Bits {
    // The bits with those of one record more.
    #[tactic(auto, using(crate::proofs::Masks::record_joined))]
    pub(crate) fn with(self, q: Query) -> Bits
        ensures { bits_outside result ≡ (bits_outside self || fields_outside q) }
    {
        Bits {
            number: with_field(self.number, q.number),
            kind: with_field(self.kind, q.kind),
            range: with_field(self.range, q.range),
            slide: with_field(self.slide, q.slide),
        }
    }

    // Whether no field of the records is outside.
    #[tactic(auto, unfolding(crate::specs::Fields::bits_outside))]
    pub(crate) fn within(self) -> bool
        ensures { result ≡ not (bits_outside self) }
    {
        self.number <= NUMBER_LIMIT
            && self.kind < KIND_LIMIT
            && self.range < LENGTH_LIMIT
            && self.slide < LENGTH_LIMIT
    }
}
