// How calls and what they returned are printed.
use crate::caller::Returned;
use crate::script::Call;
use registry::checks::ANSWER_PLACES;
use std::fmt;
use window::refusal::Refusal;

// A call, with what it is given.
impl fmt::Display for Call {
    fn fmt<W: fmt::Write>(&self, f: &mut fmt::Formatter<W>) -> fmt::Result {
        match self {
            Call::Start => write!(f, "start"),
            Call::Register(number, kind, range, slide) => {
                write!(f, "register {number} {kind} {range} {slide}")
            }
            Call::Withdraw(number) => write!(f, "withdraw {number}"),
            Call::Reading(value) => write!(f, "reading {value}"),
            Call::ReadingInto(value, places) => write!(f, "reading {value} ({places} places)"),
            Call::Totals => write!(f, "totals"),
        }
    }
}

// What a call returned, with the answer table after it.
#[derive(Clone, Copy)]
pub struct Outcome<'a> {
    pub returned: Result<Returned, Refusal>,
    pub answers: &'a [i64],
}

impl fmt::Display for Outcome<'_> {
    fn fmt<W: fmt::Write>(&self, f: &mut fmt::Formatter<W>) -> fmt::Result {
        match self.returned {
            Ok(Returned::Zero) => write!(f, "0"),
            Ok(Returned::Answers(count)) => {
                write!(f, "{count}")?;
                let (answers, _) = self.answers.as_chunks::<ANSWER_PLACES>();
                for [number, kind, readings, value] in answers.iter().take(count) {
                    write!(f, " | {number} {kind} {readings} {value}")?;
                }
                Ok(())
            }
            Ok(Returned::Totals(tally)) => {
                write!(
                    f,
                    "{} {} {} {}",
                    tally.count, tally.closed, tally.max_comparisons, tally.min_comparisons
                )
            }
            Err(refusal) => write!(f, "refused {}", u32::from(refusal)),
        }
    }
}
