// A session line: its first field says what it asks, the others are the numbers for it.
ghost use Rattle.std.specs.Prelude.{◌≡◌};
ghost use Rattle.parse.specs.Fields.{fields_left};
ghost use Rattle.parse.specs.Lines.{parsed, register_line, withdraw_line, reading_line};

use crate::fields::Fields;
use crate::numbers::{signed_number, unsigned_number};
use window::query::Registration;
use window::refusal::Refusal;

// The longest line, in bytes before its end.
pub const LINE_LENGTH: usize = 64;

// What a line asks.
#[derive(Clone, Copy, Debug, PartialEq, Eq)]
pub enum Line {
    Register(Registration),
    Withdraw { number: u32 },
    Reading { value: i32 },
}

// R number kind range slide.
fn register_line(mut fields: Fields) -> Result<Line, Refusal>
    ensures { result ≡ register_line (fields_left fields.entry) }
{
    let (Some(number), Some(kind), Some(range), Some(slide), None) = (
        fields.next(),
        fields.next(),
        fields.next(),
        fields.next(),
        fields.next(),
    ) else {
        return Err(Refusal::UnknownLine);
    };
    Ok(Line::Register(Registration {
        number: unsigned_number(number)?,
        kind: unsigned_number(kind)?,
        range: unsigned_number(range)?,
        slide: unsigned_number(slide)?,
    }))
}

// D number.
fn withdraw_line(mut fields: Fields) -> Result<Line, Refusal>
    ensures { result ≡ withdraw_line (fields_left fields.entry) }
{
    let (Some(number), None) = (fields.next(), fields.next()) else {
        return Err(Refusal::UnknownLine);
    };
    Ok(Line::Withdraw {
        number: unsigned_number(number)?,
    })
}

// V value.
fn reading_line(mut fields: Fields) -> Result<Line, Refusal>
    ensures { result ≡ reading_line (fields_left fields.entry) }
{
    let (Some(value), None) = (fields.next(), fields.next()) else {
        return Err(Refusal::UnknownLine);
    };
    Ok(Line::Reading {
        value: signed_number(value)?,
    })
}

// What a line asks, without the byte that ends it, or the refusal that it gets. Any bytes may stand in it.
#[tactic(auto, using(crate::proofs::Reading::lines))]
pub fn parse_line(line: &[u8]) -> Result<Line, Refusal>
    ensures { result ≡ parsed line.now }
{
    if LINE_LENGTH < line.len() {
        return Err(Refusal::LineTooLong);
    }
    let mut fields = Fields::new(line);
    match fields.next() {
        Some(b"R") => register_line(fields),
        Some(b"D") => withdraw_line(fields),
        Some(b"V") => reading_line(fields),
        _ => Err(Refusal::UnknownLine),
    }
}
