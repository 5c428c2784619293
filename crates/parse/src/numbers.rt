// Numbers as a session line writes them: digits without a leading zero, or 0.
ghost use Rattle.std.specs.Prelude.{◌≡◌, ◌^◌, ◌≤◌, IsTrue, MatchOption};
ghost use Rattle.parse.specs.Numbers.{digits, digits_value, written, unsigned_of, signed_of, refusal_of};

use window::refusal::Refusal;

// Why a field is no number that is wanted: it is not written as one (refusal 14), or it is outside its width (15).
#[derive(Clone, Copy, Debug, PartialEq, Eq)]
pub enum NumberError {
    Malformed,
    Wide,
}

// What refuses the line.
impl From<NumberError> for Refusal {
    ghost from_gives = { λ error refusal. refusal ≡ refusal_of error };

    fn from(error: NumberError) -> Refusal {
        match error {
            NumberError::Malformed => Refusal::NotANumber,
            NumberError::Wide => Refusal::OutsideWidth,
        }
    }
}

// Whether every byte is a digit.
fn all_digits(s: &[u8]) -> bool
    ensures { result ≡ digits s.now }
{
    s.iter().all(|b| b.is_ascii_digit())
}

// Whether the bytes are digits without a leading zero, or 0.
#[tactic(auto, using(crate::proofs::Digits::written_one, crate::proofs::Digits::written_other))]
fn is_written(s: &[u8]) -> bool
    ensures { result ≡ written s.now }
{
    match s {
        [] => false,
        [b'0', _, ..] => false,
        _ => all_digits(s),
    }
}

// The number that digits make, where it has 32 bits.
#[tactic(auto, using(crate::proofs::Digits::digits_value_next))]
fn digits_value(s: &[u8]) -> Option<u32>
    requires { IsTrue (digits s.now) }
    ensures { MatchOption result (2 ^ 32 ≤ digits_value 0 s.now) (λ n. n ≡ digits_value 0 s.now) }
{
    let mut n: u32 = 0;
    for b in s {
        n = n.checked_mul(10)?.checked_add(u32::from(*b - b'0'))?;
    }
    Some(n)
}

// An unsigned 32-bit number.
#[tactic(auto, unfolding(crate::specs::Numbers::unsigned_of, crate::specs::Numbers::number_of))]
pub(crate) fn unsigned_number(s: &[u8]) -> Result<u32, NumberError>
    ensures { result ≡ unsigned_of s.now }
{
    if !is_written(s) {
        return Err(NumberError::Malformed);
    }
    digits_value(s).ok_or(NumberError::Wide)
}

// A signed 32-bit number. A minus sign may not stand before 0.
#[tactic(auto, using(crate::proofs::Digits::signs))]
pub(crate) fn signed_number(s: &[u8]) -> Result<i32, NumberError>
    ensures { result ≡ signed_of s.now }
{
    match s {
        [b'-', digits @ ..] => match unsigned_number(digits)? {
            0 => Err(NumberError::Malformed),
            m => 0_i32.checked_sub_unsigned(m).ok_or(NumberError::Wide),
        },
        _ => i32::try_from(unsigned_number(s)?).or(Err(NumberError::Wide)),
    }
}
