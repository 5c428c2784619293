// The lines that a session prints.
ghost use Rattle.std.specs.Prelude.{◌≡◌, ◌+◌, ◌≤◌, length};
ghost use Rattle.print.specs.Put.{Put};
ghost use Rattle.print.specs.Lines.{answer_line, refusal_line, totals_line, answer_room, refusal_room, totals_room};

use crate::output::Output;

// No A line and no T line takes more, in bytes.
pub const ANSWER_ROOM: usize = 108;

pub const TOTALS_ROOM: usize = 86;

impl Output<'_> {
    // A, n, number, kind, count, value.
    pub fn put_answer(&mut self, n: u64, number: u64, kind: u64, count: u64, value: i64)
        requires { self.old.at + answer_room ≤ length self.old.bytes.now }
        ensures same_slice { self.new.bytes.ghost_name ≡ self.old.bytes.ghost_name }
        ensures put { Put self.old.bytes.now self.old.at (answer_line n number kind count value)
            self.new.bytes.now self.new.at }
        ensures short { self.new.at ≤ self.old.at + answer_room }
    {
        self.put_byte(b'A');
        self.put_field(n);
        self.put_field(number);
        self.put_field(kind);
        self.put_field(count);
        self.put_signed_field(value);
        self.put_byte(b'\n');
    }

    // E, the line's number, the refusal.
    pub fn put_refusal(&mut self, line: u64, refusal: u64)
        requires { self.old.at + refusal_room ≤ length self.old.bytes.now }
        ensures same_slice { self.new.bytes.ghost_name ≡ self.old.bytes.ghost_name }
        ensures put { Put self.old.bytes.now self.old.at (refusal_line line refusal) self.new.bytes.now self.new.at }
        ensures short { self.new.at ≤ self.old.at + refusal_room }
    {
        self.put_byte(b'E');
        self.put_field(line);
        self.put_field(refusal);
        self.put_byte(b'\n');
    }

    // T, n, P, M, N.
    pub fn put_totals(&mut self, n: u64, closed: u64, maxima: u64, minima: u64)
        requires { self.old.at + totals_room ≤ length self.old.bytes.now }
        ensures same_slice { self.new.bytes.ghost_name ≡ self.old.bytes.ghost_name }
        ensures put { Put self.old.bytes.now self.old.at (totals_line n closed maxima minima)
            self.new.bytes.now self.new.at }
        ensures short { self.new.at ≤ self.old.at + totals_room }
    {
        self.put_byte(b'T');
        self.put_field(n);
        self.put_field(closed);
        self.put_field(maxima);
        self.put_field(minima);
        self.put_byte(b'\n');
    }
}
