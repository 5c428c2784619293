// A session: it is opened on a lent query list and tables, fed its input in chunks, and finished.
ghost use Rattle.std.specs.Prelude.{◌≡◌, false, List, ℕ, ◌+◌, ◌<◌, ◌≤◌, length};
ghost use Rattle.board.specs.Lending.{lent_lists, shared_lists, SameSlices};
ghost use Rattle.engine.specs.Machine.{machine};
ghost use Rattle.engine.specs.Outcomes.{reading_state};
ghost use Rattle.parse.specs.Kept.{kept_length};
ghost use Rattle.session.specs.Meaning.{line_room};
ghost use Rattle.session.specs.Promises.{held, new_line, line_limit, has_last, goes_on, refuses_all, finish_room, RefusesEnsures, lent, OpenEnsures, LineEnsures, RestEnsures, FeedEnsures, FinishEnsures};

use crate::call::call;
use crate::report::{ANSWER_TABLE, report, report_totals};
use board::tables::{LentTables, SharedTables};
use engine::calls::{Answered, start, totals};
use engine::state::State;
use parse::fields::find_byte;
use parse::kept::{KEPT, asks, asks_with, keep};
use parse::line::Line;
use print::line::{ANSWER_ROOM, TOTALS_ROOM};
use print::output::Output;
use registry::list::RECORDS;
use window::refusal::Refusal;

// What a line prints at most, in bytes: 32 answers.
pub const LINE_ROOM: usize = RECORDS * ANSWER_ROOM;

// What the end of a session prints at most: a line, and the totals.
pub const FINISH_ROOM: usize = LINE_ROOM + TOTALS_ROOM;

// How many lines can end: the numbers of lines have 64 bits and do not wrap.
pub const LINE_LIMIT: u64 = 18_446_744_073_709_551_614;

// What is known between two bytes of the input, beside what is lent: the query list, the bytes of the current line and
// the tables.
#[derive(Clone, Copy)]
pub struct Session {
    // The engine's state.
    pub state: State,
    // How many lines came before the current one.
    pub lines: u64,
    // How many bytes of the current line are kept.
    pub kept: usize,
}

// What was taken of a chunk: the session after it, the place in the chunk up to which it was taken, and the place in
// the output up to which it printed.
#[derive(Clone, Copy)]
pub struct Taken {
    pub session: Session,
    pub to: usize,
    pub at: usize,
}

// A session before the first byte of a line.
fn new_line(state: State, lines: u64) -> Session
    ensures { result ≡ new_line state lines }
{
    Session {
        state,
        lines,
        kept: 0,
    }
}

// The state after the call of a line: as it was, where it was refused.
fn state_after(state: State, called: Result<Answered, Refusal>) -> State
    ensures { result ≡ reading_state state called }
{
    called.map_or(state, |answered| answered.state)
}

// Opens a session: a fresh engine, and no line yet.
pub fn open(list: &mut [u32], tables: &mut LentTables<'_>) -> Session
    ensures same { SameSlices tables.old tables.new }
    ensures opened { (line : List ℕ) → OpenEnsures (lent list.old (lent_lists tables.old)) (held result list.new line (lent_lists tables.new)) }
{
    let fresh = State::fresh();
    new_line(start(list, tables).unwrap_or(fresh), 0)
}

impl Session {
    // Whether the end of the input ends a line: it has a byte, and there is a number for it.
    fn has_last(self) -> bool
        ensures { result ≡ has_last self }
    {
        self.lines <= LINE_LIMIT && 0 < self.kept
    }

    // Whether nothing is taken: there is no room for the bytes of a line, or the engine refuses every call on entry, by
    // checks 1 and 2, as totals has no other.
    pub(crate) fn refuses(self, room: usize, list: &[u32], tables: SharedTables<'_>) -> bool
        ensures { RefusesEnsures (machine self.state list.now (shared_lists tables.entry)) room result }
    {
        room < KEPT || totals(self.state, list, tables).is_err()
    }
}

// A line ends, after so many others: the call that it asks for is made, and what it prints is put into the output. What
// is handed back is the session before the next line.
pub(crate) fn end_line(
    asked: Result<Line, Refusal>,
    state: State,
    lines: u64,
    list: &mut [u32],
    tables: &mut LentTables<'_>,
    answers: &mut [i64; ANSWER_TABLE],
    output: &mut Output<'_>,
) -> Session
    requires room { output.old.at + line_room ≤ length output.old.bytes.now }
    requires few { lines ≤ line_limit }
    ensures same { SameSlices tables.old tables.new }
    ensures same_slice { output.new.bytes.ghost_name ≡ output.old.bytes.ghost_name }
    ensures ended { LineEnsures asked
        (machine state list.old (lent_lists tables.old)) lines output.old.bytes.now output.old.at
        result (machine result.state list.new (lent_lists tables.new)) output.new.bytes.now output.new.at }
{
    let number = lines + 1;
    let called = call(state, list, tables, answers, asked);
    let next = state_after(state, called);
    report(called, answers, u64::from(next.count), number, output);
    new_line(next, number)
}

// The rest of a line: the bytes of the chunk from a place on, up to the next line end, or to the chunk's end. What is
// handed back is the session after them, and the place up to which they were taken.
pub(crate) fn rest_of_line(
    session: Session,
    list: &mut [u32],
    line: &mut [u8],
    tables: &mut LentTables<'_>,
    answers: &mut [i64; ANSWER_TABLE],
    chunk: &[u8],
    from: usize,
    output: &mut Output<'_>,
) -> (Session, usize)
    requires room { output.old.at + line_room ≤ length output.old.bytes.now }
    requires few { session.lines < line_limit }
    requires inside { from < length chunk.now }
    requires line_room { kept_length ≤ length line.old }
    ensures same { SameSlices tables.old tables.new }
    ensures same_slice { output.new.bytes.ghost_name ≡ output.old.bytes.ghost_name }
    ensures rest { RestEnsures chunk.now from
        (held session list.old line.old (lent_lists tables.old)) output.old.bytes.now output.old.at
        (held result.0 list.new line.new (lent_lists tables.new)) result.1 output.new.bytes.now output.new.at }
{
    let rest = &chunk[from..];
    match find_byte(rest, b'\n') {
        None => {
            let kept = keep(line, session.kept, rest);
            (Session { kept, ..session }, chunk.len())
        }
        Some(length) => {
            let asked = asks_with(line, session.kept, &rest[..length]);
            let next = end_line(
                asked,
                session.state,
                session.lines,
                list,
                tables,
                answers,
                output,
            );
            (next, from + length + 1)
        }
    }
}

// Whether there is a byte to take, room for what the line that it may end prints, and a number for that line.
fn goes_on(to: usize, size: usize, at: usize, room: usize, lines: u64) -> bool
    ensures { result ≡ goes_on to size at room lines }
{
    if size <= to {
        return false;
    }
    if room < LINE_ROOM {
        return false;
    }
    if room - LINE_ROOM < at {
        return false;
    }
    lines < LINE_LIMIT
}

// Takes bytes of a chunk from a place on, a line after the other, where not all is refused, and puts what they print into
// an empty output. What is handed back is the session after them, and the place up to which they were taken.
fn feed_lines(
    session: Session,
    list: &mut [u32],
    line: &mut [u8],
    tables: &mut LentTables<'_>,
    chunk: &[u8],
    from: usize,
    output: &mut Output<'_>,
) -> (Session, usize)
    requires open { refuses_all (machine session.state list.old (lent_lists tables.old)) (length line.old) ≡ false }
    requires front { output.old.at ≡ 0 }
    ensures same { SameSlices tables.old tables.new }
    ensures same_slice { output.new.bytes.ghost_name ≡ output.old.bytes.ghost_name }
    ensures fed { FeedEnsures chunk.now from
        (held session list.old line.old (lent_lists tables.old)) output.old.bytes.now
        (held result.0 list.new line.new (lent_lists tables.new)) result.1 output.new.bytes.now output.new.at }
{
    let mut answers = [0i64; ANSWER_TABLE];
    let room = output.bytes.len();
    let mut session = session;
    let mut to = from;
    while goes_on(to, chunk.len(), output.at, room, session.lines) {
        (session, to) = rest_of_line(session, list, line, tables, &mut answers, chunk, to, output);
    }
    (session, to)
}

// Takes bytes of a chunk from a place on, and puts what they print at the front of the output. It takes them all but
// where the output has no more room for what a line may print, or the lines have come to their limit; and none where
// the query list, the slice for the line or a table is too short or the list is damaged. Where it takes none, nothing
// changes.
#[tactic(auto, using(crate::proofs::Refusing::open_where))]
pub fn feed(
    session: Session,
    list: &mut [u32],
    line: &mut [u8],
    tables: &mut LentTables<'_>,
    chunk: &[u8],
    from: usize,
    out: &mut [u8],
) -> Taken
    ensures same { SameSlices tables.old tables.new }
    ensures fed { FeedEnsures chunk.now from
        (held session list.old line.old (lent_lists tables.old)) out.old
        (held result.session list.new line.new (lent_lists tables.new)) result.to out.new result.at }
{
    if session.refuses(line.len(), list, tables.shared()) {
        return Taken {
            session,
            to: from,
            at: 0,
        };
    }
    let mut output = Output { bytes: out, at: 0 };
    let (session, to) = feed_lines(session, list, line, tables, chunk, from, &mut output);
    Taken {
        session,
        to,
        at: output.at,
    }
}

// The end of the input, where not all is refused: what a last line prints, and the totals, are put into an empty output.
fn finish_lines(
    session: Session,
    list: &mut [u32],
    line: &[u8],
    tables: &mut LentTables<'_>,
    output: &mut Output<'_>,
)
    requires open { refuses_all (machine session.state list.old (lent_lists tables.old)) (length line.now) ≡ false }
    requires front { output.old.at ≡ 0 }
    requires room { finish_room ≤ length output.old.bytes.now }
    ensures same { SameSlices tables.old tables.new }
    ensures same_slice { output.new.bytes.ghost_name ≡ output.old.bytes.ghost_name }
    ensures finished { FinishEnsures
        (held session list.old line.now (lent_lists tables.old)) output.old.bytes.now
        (lent list.new (lent_lists tables.new)) output.new.bytes.now output.new.at }
{
    if !session.has_last() {
        report_totals(session.state, output);
        return;
    }
    let mut answers = [0i64; ANSWER_TABLE];
    let last = end_line(
        asks(line, session.kept),
        session.state,
        session.lines,
        list,
        tables,
        &mut answers,
        output,
    );
    report_totals(last.state, output);
}

// The end of the input: what a last line that has a byte prints, and the totals, at the front of the output. Nothing is
// printed and nothing changes where the output has no room for them, the query list, the slice for the line or a table
// is too short or the list is damaged. A last line that no number is left for, which no session from `open` on has,
// prints nothing.
#[tactic(auto, using(crate::proofs::Refusing::open_where))]
pub fn finish(
    session: Session,
    list: &mut [u32],
    line: &[u8],
    tables: &mut LentTables<'_>,
    out: &mut [u8],
) -> usize
    ensures same { SameSlices tables.old tables.new }
    ensures finished { FinishEnsures
        (held session list.old line.now (lent_lists tables.old)) out.old
        (lent list.new (lent_lists tables.new)) out.new result }
{
    if out.len() < FINISH_ROOM {
        return 0;
    }
    if session.refuses(line.len(), list, tables.shared()) {
        return 0;
    }
    let mut output = Output { bytes: out, at: 0 };
    finish_lines(session, list, line, tables, &mut output);
    output.at
}
