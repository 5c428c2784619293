// The fields of a line, which are parted by one tab.
ghost use Rattle.std.specs.Prelude.{◌≡◌, ◌==◌, position};
ghost use Rattle.std.specs.Iterator.{item_count};
ghost use Rattle.parse.specs.Fields.{fields_left, GivesField};

// A line's bytes, and a position in it: the start of a field, or one beyond the line, after the last field.
#[derive(Clone, Copy, Debug)]
pub struct Fields<'a> {
    pub line: &'a [u8],
    pub at: usize,
}

// The place of the first byte that equals b.
pub fn find_byte(bytes: &[u8], b: u8) -> Option<usize>
    ensures { result ≡ position (λ x. x == b) bytes.now }
{
    bytes.iter().position(|x| *x == b)
}

impl<'a> Fields<'a> {
    // All fields of a line.
    pub fn new(line: &'a [u8]) -> Fields<'a>
        ensures { (result.line ≡ line.entry) × (result.at ≡ 0) }
    {
        Fields { line, at: 0 }
    }
}

// One field after the other: each ends at the next tab, or at the line's end.
impl<'a> Iterator for Fields<'a> {
    type Item = &'a [u8];

    ghost next_gives = { GivesField };

    ghost remaining = { item_count fields_left };

    fn next(&mut self) -> Option<&'a [u8]> {
        let rest = self.line.get(self.at..)?;
        let length = find_byte(rest, b'\t').unwrap_or(rest.len());
        self.at += length + 1;
        Some(&rest[..length])
    }
}
