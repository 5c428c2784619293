// The refusals of document 01, "The calls and where each refuses", by name and number, and the checks of a
// registration's fields.
ghost use Rattle.std.specs.Prelude.{◌≡◌};
ghost use Rattle.window.specs.Refusals.{refusal_number, first_refusal, name_checks, length_checks, field_checks};

use crate::query::{Kind, LENGTH_LIMIT, NUMBER_LIMIT, Registration};

// In the order of the document's table, each with the document's number.
#[derive(Clone, Copy, Debug, PartialEq, Eq)]
pub enum Refusal {
    TableTooShort = 1,
    Damaged = 2,
    NumberOutside = 3,
    KindOutside = 4,
    RangeOutside = 5,
    SlideOutside = 6,
    NumberTaken = 7,
    ListFull = 8,
    NotRegistered = 9,
    CountExhausted = 10,
    AnswersTooShort = 11,
    LineTooLong = 12,
    UnknownLine = 13,
    NotANumber = 14,
    OutsideWidth = 15,
}

// The document's number of a refusal.
impl From<Refusal> for u32 {
    ghost from_gives = { λ refusal number. number ≡ refusal_number refusal };

    fn from(refusal: Refusal) -> u32 {
        refusal as u32
    }
}

// Checks 3 and 4, in this order: a registration's number and kind are within their limits.
#[tactic(auto, unfolding(crate::specs::Refusals::name_checks))]
pub fn check_name(number: u32, kind: u32) -> Result<(), Refusal>
    ensures { result ≡ first_refusal (name_checks number kind) }
{
    if !(1..=NUMBER_LIMIT).contains(&number) {
        return Err(Refusal::NumberOutside);
    }
    Kind::try_from(kind)?;
    Ok(())
}

// Checks 5 and 6, in this order: a registration's range and slide are within their limits.
#[tactic(auto, unfolding(crate::specs::Refusals::length_checks))]
pub fn check_lengths(range: u32, slide: u32) -> Result<(), Refusal>
    ensures { result ≡ first_refusal (length_checks range slide) }
{
    if !(1..=LENGTH_LIMIT).contains(&range) {
        return Err(Refusal::RangeOutside);
    }
    if !(1..=LENGTH_LIMIT).contains(&slide) {
        return Err(Refusal::SlideOutside);
    }
    Ok(())
}

// Checks 3 to 6, in this order.
#[tactic(auto, unfolding(crate::specs::Refusals::field_checks))]
pub fn check_fields(asked: Registration) -> Result<(), Refusal>
    ensures { result ≡ first_refusal (field_checks asked.number asked.kind asked.range asked.slide) }
{
    check_name(asked.number, asked.kind)?;
    check_lengths(asked.range, asked.slide)
}
