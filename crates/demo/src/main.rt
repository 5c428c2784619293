#![tactic(auto)]

// A demonstration of the five calls: it plays the starred cases and the sample session of document 01 on a query list
// of 32 records, and prints what each call returns.
mod caller;
mod script;
mod show;

use crate::caller::Caller;
use crate::script::{Call, PLACES};
use crate::show::Outcome;
use board::tables::LentTables;
use deque::ring::CAPACITY;
use engine::state::State;
use records::copy::none;

// Each call of a list is made, and printed on a line with what it returned. A write that fails is not looked at: the
// stored output shows it.
fn play<P: Print>(rt: &P, caller: &mut Caller<'_>, calls: &[Call]) {
    let mut answers = [0; PLACES];
    for call in calls {
        let answers = &mut answers[..call.places()];
        let returned = caller.perform(*call, answers);
        let _ = println!(rt; "{call} -> {}", Outcome { returned, answers });
    }
}

// Each list in turn, with a blank line between two.
fn play_all<P: Print>(rt: &P) {
    let tables = LentTables {
        starts: &mut [0; CAPACITY],
        sums: &mut [0; CAPACITY],
        max_starts: &mut [0; CAPACITY],
        max_values: &mut [0; CAPACITY],
        min_starts: &mut [0; CAPACITY],
        min_values: &mut [0; CAPACITY],
    };
    let mut caller = Caller {
        state: State::fresh(),
        queries: none(),
        tables,
    };
    let full_list = script::full_list();
    let cases = [
        script::SLIDING_MAXIMUM,
        script::SLIDING_SUM,
        script::SHORT_RANGE,
        script::LEAST_READING,
        script::GREATEST_READING,
        script::LATER_REGISTRATION,
        script::LAST_WITHDRAWAL,
        script::FIELD_LIMITS,
        &full_list,
        script::SAMPLE_SESSION,
        script::REFUSED_READING,
    ];
    for (i, calls) in cases.iter().enumerate() {
        if i > 0 {
            let _ = println!(rt);
        }
        play(rt, &mut caller, calls);
    }
}

fn main(rt: HostRuntime) {
    play_all(&rt);
}
