// The current line: as many of its bytes as tell what it asks, in a slice that the caller lends. The caller also holds
// how many they are, so that the line has a byte where that is not 0.
ghost use Rattle.std.specs.Prelude.{◌≡◌, ◌++◌, ◌≤◌, length, take};
ghost use Rattle.parse.specs.Lines.{parsed};
ghost use Rattle.parse.specs.Kept.{kept_length, kept_line, SameBeyond};

use crate::line::{LINE_LENGTH, Line, parse_line};
use window::refusal::Refusal;

// How many bytes of a line are kept: one more than the longest line has, which tells that it is too long.
pub const KEPT: usize = LINE_LENGTH + 1;

// Keeps a piece of the line behind the bytes that are kept, as far as there is room. Returns how many are kept then.
#[tactic(auto, using(crate::proofs::Keeping::keeping))]
pub fn keep(line: &mut [u8], kept: usize, piece: &[u8]) -> usize
    requires { kept_length ≤ length line.old }
    ensures joined { kept_line result line.new ≡ take kept_length (kept_line kept line.old ++ piece.now) }
    ensures beyond { SameBeyond line.old line.new }
{
    let start = kept.min(KEPT);
    let end = (start + piece.len()).min(KEPT);
    line[start..end].copy_from_slice(&piece[..end - start]);
    end
}

// What the kept line asks, or the refusal that it gets.
pub fn asks(line: &[u8], kept: usize) -> Result<Line, Refusal>
    requires { kept_length ≤ length line.now }
    ensures { result ≡ parsed (kept_line kept line.now) }
{
    parse_line(&line[..kept.min(KEPT)])
}

// What the line asks that ends with a piece, or the refusal that it gets. Where no byte is kept the piece is parsed
// where it stands; else its bytes join those kept first.
#[tactic(auto, using(crate::proofs::Keeping::parsed_piece))]
pub fn asks_with(line: &mut [u8], kept: usize, piece: &[u8]) -> Result<Line, Refusal>
    requires { kept_length ≤ length line.old }
    ensures joined { result ≡ parsed (take kept_length (kept_line kept line.old ++ piece.now)) }
    ensures beyond { SameBeyond line.old line.new }
{
    if kept == 0 {
        return parse_line(piece);
    }
    let all = keep(line, kept, piece);
    asks(line, all)
}
