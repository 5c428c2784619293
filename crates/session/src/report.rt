// What a line prints, the answers of a reading or the refusal; and the totals at the end.
ghost use Rattle.std.specs.Prelude.{◌+◌, ◌*◌, ◌≤◌, length, ◌≡◌};
ghost use Rattle.window.specs.Refusals.{answer_places};
ghost use Rattle.engine.specs.Answers.{answers_in};
ghost use Rattle.engine.specs.Outcomes.{answers_written, reading_outcome};
ghost use Rattle.print.specs.Put.{Put};
ghost use Rattle.print.specs.Lines.{answer_room, totals_line, totals_room};
ghost use Rattle.session.specs.Meaning.{answer_at, answer_text, answer_texts, printed, line_room};
ghost use Rattle.session.specs.Promises.{Within};

use engine::calls::Answered;
use engine::state::State;
use print::output::Output;
use registry::checks::ANSWER_PLACES;
use registry::list::RECORDS;
use window::refusal::Refusal;

// The places of an answer table that is long enough for the answers of all queries.
pub(crate) const ANSWER_TABLE: usize = RECORDS * ANSWER_PLACES;

// One answer, by its places.
#[tactic(auto, using(crate::proofs::Reporting::place_read), unfolding(crate::specs::Meaning::answer_text))]
fn report_answer(answer: &[i64; ANSWER_PLACES], n: u64, output: &mut Output)
    requires room { output.old.at + answer_room ≤ length output.old.bytes.now }
    ensures same_slice { output.new.bytes.ghost_name ≡ output.old.bytes.ghost_name }
    ensures put { Put output.old.bytes.now output.old.at (answer_text n (answer_at answer.now 0))
        output.new.bytes.now output.new.at }
    ensures short { output.new.at ≤ output.old.at + answer_room }
{
    let [number, kind, count, value] = *answer;
    output.put_answer(
        n,
        number.unsigned_abs(),
        kind.unsigned_abs(),
        count.unsigned_abs(),
        value,
    );
}

// The first k of a table's answers, in order.
fn report_answers(answers: &[i64; ANSWER_TABLE], k: usize, n: u64, output: &mut Output)
    requires within { answer_places * k ≤ length answers.now }
    requires room { output.old.at + line_room ≤ length output.old.bytes.now }
    ensures same_slice { output.new.bytes.ghost_name ≡ output.old.bytes.ghost_name }
    ensures put { Put output.old.bytes.now output.old.at (answer_texts n (answers_in k answers.now))
        output.new.bytes.now output.new.at }
    ensures short { output.new.at ≤ output.old.at + line_room }
{
    let (answers, _) = answers.as_chunks::<ANSWER_PLACES>();
    for answer in &answers[..k] {
        report_answer(answer, n, output);
    }
}

// What a line prints whose call came to this, with n readings accepted.
#[tactic(auto, unfolding(crate::specs::Meaning::printed))]
pub(crate) fn report(
    called: Result<Answered, Refusal>,
    answers: &[i64; ANSWER_TABLE],
    n: u64,
    line: u64,
    output: &mut Output,
)
    requires within { Within (answers_written called) answers.now }
    requires room { output.old.at + line_room ≤ length output.old.bytes.now }
    ensures same_slice { output.new.bytes.ghost_name ≡ output.old.bytes.ghost_name }
    ensures put { Put output.old.bytes.now output.old.at (printed n line (reading_outcome (answers_written called) answers.now))
        output.new.bytes.now output.new.at }
    ensures short { output.new.at ≤ output.old.at + line_room }
{
    match called {
        Ok(answered) => report_answers(answers, answered.answers, n, output),
        Err(refusal) => output.put_refusal(line, u64::from(u32::from(refusal))),
    }
}

// The totals of a state: n, P, M and N.
pub(crate) fn report_totals(state: State, output: &mut Output)
    requires { output.old.at + totals_room ≤ length output.old.bytes.now }
    ensures same_slice { output.new.bytes.ghost_name ≡ output.old.bytes.ghost_name }
    ensures put { Put output.old.bytes.now output.old.at
        (totals_line state.count state.board.closed state.board.maxima.comparisons state.board.minima.comparisons)
        output.new.bytes.now output.new.at }
    ensures short { output.new.at ≤ output.old.at + totals_room }
{
    let tally = state.tally();
    output.put_totals(
        u64::from(tally.count),
        u64::from(tally.closed),
        tally.max_comparisons,
        tally.min_comparisons,
    );
}
