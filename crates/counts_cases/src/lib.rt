// Cases of the two counts: along a run from a fresh start (call 1), and asked of any state (call 2). A count is one byte of a case.

#![tactic(auto)]

use cases::{Cases, Refused};
use sheet::Table;
use state::State;
use std::io::Read;

// More than the rows that a case chooses, and more than its counts take.
const RUN: usize = 1024;

// The two counts of a state, beside two bytes of the case.
fn counts_agree(s: State, counts: &[u8]) -> bool {
    counts == [sheet_engine::acts_left(s), sheet_engine::links_unset(s)].as_slice()
}

// The run of these rows from a fresh state, up to the first that is refused: why it is, and whether there are two counts for each state, and they agree.
fn run(fresh: State, t: Table, rows: &[u8], counts: &[u8]) -> (Refused, bool) {
    let mut s = fresh;
    let mut pairs = counts.chunks_exact(2);
    let mut agree = pairs.next().is_some_and(|pair| counts_agree(s, pair));
    for row in rows {
        let next = sheet_engine::take_step(s, &t, *row as usize);
        if let Err(refusal) = next.answer {
            let refused = (refusal.number, refusal.place);
            return (refused, agree & pairs.next().is_none());
        }
        s = next.state;
        agree &= pairs.next().is_some_and(|pair| counts_agree(s, pair));
    }
    ((0, 0), agree & pairs.next().is_none())
}

// The run from the start, which may be refused.
fn started(mode: u8, t: Table, rows: &[u8], counts: &[u8]) -> (Refused, bool) {
    match sheet_engine::start(&t, mode) {
        Ok(fresh) => run(fresh, t, rows, counts),
        Err(refusal) => ((refusal.number, refusal.place), counts.len() < 2),
    }
}

// A run: its rows and its table; as output number and place, which take 5 bytes, then two counts for each state. A number that is no byte is no mode, as is 255.
fn run_agrees(case: &mut Cases<impl Read>, argument: usize) -> bool {
    let size = case.two();
    let mut chosen = [0; RUN];
    let rows = case.text(size, &mut chosen);
    let mut terms = [0; cases::SPACE];
    let mut conditions = [0; cases::SPACE];
    let t = case.table(&mut terms, &mut conditions);
    let length = case.four();
    let refusal = case.refusal();
    let mut told = [0; RUN];
    let counts = case.text(length.saturating_sub(5), &mut told);
    let mode = u8::try_from(argument).unwrap_or(255);
    started(mode, t, rows, counts) == (refusal, true)
}

// No call of these is refused.
fn questions_agree(case: &mut Cases<impl Read>) -> bool {
    let s = case.state();
    // the length of the output
    case.four();
    let refusal = case.refusal();
    let counts = [case.byte(), case.byte()];
    (refusal == (0, 0)) & counts_agree(s, &counts)
}

// The rest of a case, whose input begins here.
pub fn agrees(case: &mut Cases<impl Read>) -> bool {
    let asked = case.asked();
    match asked.call {
        1 => run_agrees(case, asked.argument),
        2 => questions_agree(case),
        _ => false,
    }
}
