// The state as 18 numbers, and back. Numbers that no state is written as are read as a state with 33 queries, which
// check 2 refuses.
ghost use Rattle.std.specs.Prelude.{◌≡◌, ◌&&◌, ◌++◌, ◌≤◌, length, take, drop};
ghost use Rattle.encoding.specs.Signed.{signed};
ghost use Rattle.encoding.specs.Written.{state_numbers, count_in, held_in, numbers_of_state, narrow, open_of, held_of, sums_of, deque_of, board_of, state_of, within_widths, registered_in};

use crate::cases::Case;
use crate::signed::{signed, unsigned};
use board::aggregate::Aggregate;
use board::board::Board;
use deque::extremes::Deque;
use deque::ring::Ring;
use deque::sums::Sums;
use engine::partial::Open;
use engine::state::State;
use registry::list::RECORDS;
use window::count::Count;

// How many numbers a state is written as.
pub const STATE_NUMBERS: usize = 18;

// A count, as it is; a number outside its width is read as 0. No other function here reads a count from a number:
// `within_widths` asks only whether there is one.
fn count_in(w: u64) -> Count
    ensures { result ≡ count_in w }
{
    Count::try_from(w).unwrap_or(0)
}

// A signed number of 32 bits; any other is read as 0.
#[tactic(auto, using(crate::proofs::Signs::narrowing))]
fn narrow_signed(w: u64) -> i32
    ensures { result ≡ signed (narrow w) }
{
    i32::try_from(signed(w)).unwrap_or(0)
}

// The open partial of a case that holds this. A case above 2 is refused by its width.
fn open_of(case: u64, held: Aggregate) -> Open
    ensures { result ≡ open_of case held }
{
    match Case::try_from(case) {
        Ok(Case::Nothing) => Open::Nothing,
        Ok(Case::Empty) => Open::Empty,
        Ok(Case::Holding) | Err(()) => Open::Holding(held),
    }
}

// What an open partial holds, by start, sum, maximum and minimum.
fn held_of(start: u64, sum: u64, maximum: u64, minimum: u64) -> Aggregate
    ensures { result ≡ held_of start sum maximum minimum }
{
    Aggregate {
        start: count_in(start),
        sum: signed(sum),
        maximum: narrow_signed(maximum),
        minimum: narrow_signed(minimum),
    }
}

// A ring, by its head and length.
fn ring_of(head: u64, len: u64) -> Ring
    ensures { (result.head ≡ head) × (result.len ≡ len) }
{
    Ring {
        head: head as usize,
        len: len as usize,
    }
}

// The closed partials with their sums, by head and length of their ring, and the sums of two laps.
fn sums_of(head: u64, len: u64, lap: u64, previous: u64) -> Sums
    ensures { result ≡ sums_of head len lap previous }
{
    Sums {
        ring: ring_of(head, len),
        lap: signed(lap),
        previous: signed(previous),
    }
}

// A monotonic deque, by head and length of its ring, and the comparisons made.
fn deque_of(head: u64, len: u64, comparisons: u64) -> Deque
    ensures { result ≡ deque_of head len comparisons }
{
    Deque {
        ring: ring_of(head, len),
        comparisons,
    }
}

// The board that these numbers are read as.
#[tactic(auto, unfolding(crate::specs::Written::board_of))]
fn board_of(w: [u64; STATE_NUMBERS]) -> Board
    ensures { result ≡ board_of w }
{
    Board {
        closed: count_in(w[1]),
        sums: sums_of(w[7], w[8], w[9], w[10]),
        maxima: deque_of(w[11], w[12], w[13]),
        minima: deque_of(w[14], w[15], w[16]),
    }
}

// The state that these numbers are read as.
#[tactic(auto, unfolding(crate::specs::Written::state_of))]
fn state_of(w: [u64; STATE_NUMBERS]) -> State
    ensures { result ≡ state_of w }
{
    State {
        count: count_in(w[0]),
        registered: registered_in(w),
        partial: open_of(w[2], held_of(w[3], w[4], w[5], w[6])),
        board: board_of(w),
    }
}

// Whether each number is within the width of what it stands for.
#[tactic(auto, unfolding(crate::specs::Written::within_widths))]
fn within_widths(w: [u64; STATE_NUMBERS]) -> bool
    ensures { result ≡ within_widths w }
{
    Count::try_from(w[0]).is_ok()
        && Count::try_from(w[1]).is_ok()
        && Case::try_from(w[2]).is_ok()
        && Count::try_from(w[3]).is_ok()
        && u32::try_from(w[5]).is_ok()
        && u32::try_from(w[6]).is_ok()
}

// How many queries are registered: 33 where a number is outside the width of what it stands for.
#[tactic(auto, unfolding(crate::specs::Written::registered_in))]
fn registered_in(w: [u64; STATE_NUMBERS]) -> usize
    ensures { result ≡ registered_in w }
{
    if within_widths(w) {
        return w[17] as usize;
    }
    RECORDS + 1
}

// What an open partial holds: 0 where it holds nothing.
fn held_in(partial: Open) -> Aggregate
    ensures { result ≡ held_in partial }
{
    match partial {
        Open::Nothing | Open::Empty => Aggregate {
            start: 0,
            sum: 0,
            maximum: 0,
            minimum: 0,
        },
        Open::Holding(held) => held,
    }
}

// The numbers of a state. They are read again as that state.
fn numbers_of(state: State) -> [u64; STATE_NUMBERS]
    ensures written { result ≡ numbers_of_state state }
    ensures read { state_of result ≡ state }
{
    let held = held_in(state.partial);
    let Board {
        closed,
        sums,
        maxima,
        minima,
    } = state.board;
    [
        u64::from(state.count),
        u64::from(closed),
        u64::from(Case::from(state.partial)),
        u64::from(held.start),
        unsigned(held.sum),
        unsigned(i64::from(held.maximum)),
        unsigned(i64::from(held.minimum)),
        sums.ring.head as u64,
        sums.ring.len as u64,
        unsigned(sums.lap),
        unsigned(sums.previous),
        maxima.ring.head as u64,
        maxima.ring.len as u64,
        maxima.comparisons,
        minima.ring.head as u64,
        minima.ring.len as u64,
        minima.comparisons,
        state.registered as u64,
    ]
}

// The state that the first 18 numbers are read as. Inlined, so that it is not copied to its caller.
#[inline(always)]
pub fn load_state(words: &[u64]) -> State
    requires { state_numbers ≤ length words.now }
    ensures { result ≡ state_of (take state_numbers words.now) }
{
    state_of(*words.first_chunk().unwrap())
}

// The state is written: it is read again as it was.
pub fn store_state(words: &mut [u64], state: State)
    requires { state_numbers ≤ length words.old }
    ensures written { words.new ≡ numbers_of_state state ++ drop state_numbers words.old }
    ensures read { state_of (take state_numbers words.new) ≡ state }
{
    *words.first_chunk_mut().unwrap() = numbers_of(state);
}
