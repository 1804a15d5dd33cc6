// Cases of calls on a state: the list of steps, and a step by its kind and by what it leaves.

#![tactic(auto)]

use cases::{Cases, NOTHING, Said, Told, same_state, step_said, told};
use engine::Stepped;
use sheet::{Refusal, Table};
use state::{State, StepKind};
use std::io::Read;

// What a step is, in three bytes, where nothing is refused.
fn read_told(case: &mut Cases<impl Read>) -> Told<Said> {
    let (number, place) = case.refusal();
    let said = if number == 0 {
        Said {
            word: case.byte(),
            x: case.byte() as usize,
            y: case.byte() as usize,
        }
    } else {
        NOTHING
    };
    ((number, place), said)
}

// Asking for the kind of a step, taking it, and taking it on a lent record answer alike.
fn step_agrees(case: &mut Cases<impl Read>, s: State, t: Table, row: usize) -> bool {
    let expected = read_told(case);
    let ((number, _), _) = expected;
    let after = case.state_after(number, s);
    let answered = |answer: Result<StepKind, Refusal>| told(answer.map(step_said), NOTHING)
        == expected;
    let left = |next: Stepped| answered(next.answer) & same_state(next.state, after);
    let kind = sheet_engine::step_kind(s, &t, row);
    let taken = sheet_engine::take_step(s, &t, row);
    let placed = lent::step_lent(s, &t, row);
    answered(kind) & left(taken) & left(placed)
}

fn list_agrees(case: &mut Cases<impl Read>, s: State, t: Table, room: usize) -> bool {
    let mut buffer = [cases::BLANK; cases::SPACE];
    let out = cases::lend(&mut buffer, room);
    let answer = sheet_engine::list_steps(s, &t, out);
    case.size_agrees(answer, out)
}

// The rest of a case, whose input begins here: call 1 lists the steps, call 2 takes one.
pub fn agrees(case: &mut Cases<impl Read>) -> bool {
    let asked = case.asked();
    let s = case.state();
    let mut terms = [0; cases::SPACE];
    let mut conditions = [0; cases::SPACE];
    let t = case.table(&mut terms, &mut conditions);
    // the length of the output
    case.four();
    match asked.call {
        1 => list_agrees(case, s, t, asked.room),
        2 => step_agrees(case, s, t, asked.argument),
        _ => false,
    }
}
