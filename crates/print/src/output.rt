// The output: bytes, and numbers in base ten, put one after the other into a lent slice.
ghost use Rattle.std.specs.Prelude.{[], ◌∷◌, ◌≡◌, ◌+◌, ◌≤◌, ◌<◌, length};
ghost use Rattle.print.specs.Decimal.{decimal, decimalℤ};
ghost use Rattle.print.specs.Put.{Put};

use itoa::write_digits;

// A lent slice, and the place after what was put into it. Each method keeps the slice (`same_slice`), so that whoever
// lent it knows what it holds afterwards.
#[derive(Drop)]
pub struct Output<'a> {
    pub bytes: &'a mut [u8],
    pub at: usize,
}

// How many digits a number has. Short numbers, which are most, are told by their bounds: that is quicker.
#[tactic(auto, using(crate::proofs::Digits::counts))]
fn digit_count(n: u64) -> usize
    ensures { result ≡ length (decimal n) }
{
    match n {
        0..=9 => 1,
        10..=99 => 2,
        100..=999 => 3,
        1000..=9999 => 4,
        _ => n.ilog10() as usize + 1,
    }
}

impl Output<'_> {
    // A byte. The place is read once, since a write to the slice might change it, for all that the compiler knows.
    pub(crate) fn put_byte(&mut self, byte: u8)
        requires { self.old.at < length self.old.bytes.now }
        ensures same_slice { self.new.bytes.ghost_name ≡ self.old.bytes.ghost_name }
        ensures put { Put self.old.bytes.now self.old.at (byte ∷ []) self.new.bytes.now self.new.at }
    {
        let at = self.at;
        self.bytes[at] = byte;
        self.at = at + 1;
    }

    // A number of any length.
    #[tactic(auto, using(crate::proofs::Digits::decimal_same))]
    fn put_many_digits(&mut self, n: u64)
        requires { self.old.at + length (decimal n) ≤ length self.old.bytes.now }
        ensures same_slice { self.new.bytes.ghost_name ≡ self.old.bytes.ghost_name }
        ensures put { Put self.old.bytes.now self.old.at (decimal n) self.new.bytes.now self.new.at }
    {
        let end = self.at + digit_count(n);
        write_digits(n, self.bytes, end);
        self.at = end;
    }

    // A number. Most have one digit, which is put at once, where the call stands.
    #[inline(always)]
    #[tactic(auto, using(crate::proofs::Digits::counts))]
    fn put_digits(&mut self, n: u64)
        requires { self.old.at + length (decimal n) ≤ length self.old.bytes.now }
        ensures same_slice { self.new.bytes.ghost_name ≡ self.old.bytes.ghost_name }
        ensures put { Put self.old.bytes.now self.old.at (decimal n) self.new.bytes.now self.new.at }
    {
        if n < 10 {
            self.put_byte(b'0' + n as u8);
        } else {
            self.put_many_digits(n);
        }
    }

    // A tab and a number.
    #[tactic(auto, using(crate::proofs::Digits::counts))]
    pub(crate) fn put_field(&mut self, n: u64)
        requires { self.old.at + 21 ≤ length self.old.bytes.now }
        ensures same_slice { self.new.bytes.ghost_name ≡ self.old.bytes.ghost_name }
        ensures put { Put self.old.bytes.now self.old.at (9 ∷ decimal n) self.new.bytes.now self.new.at }
        ensures short { self.new.at ≤ self.old.at + 21 }
    {
        self.put_byte(b'\t');
        self.put_digits(n);
    }

    // A tab and a signed number.
    #[tactic(auto, using(crate::proofs::Digits::counts))]
    pub(crate) fn put_signed_field(&mut self, z: i64)
        requires { self.old.at + 22 ≤ length self.old.bytes.now }
        ensures same_slice { self.new.bytes.ghost_name ≡ self.old.bytes.ghost_name }
        ensures put { Put self.old.bytes.now self.old.at (9 ∷ decimalℤ z) self.new.bytes.now self.new.at }
        ensures short { self.new.at ≤ self.old.at + 22 }
    {
        self.put_byte(b'\t');
        if z.is_negative() {
            self.put_byte(b'-');
        }
        self.put_digits(z.unsigned_abs());
    }
}
