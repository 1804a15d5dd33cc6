// Cases of compacting: the sheet in the lent buffer and the state that goes with it; and what was made, compacted once more, is made again.

#![tactic(auto)]

use cases::{Cases, first, same_state, told};
use sheet::Table;
use state::State;
use std::io::Read;

// A sheet and a state, compacted, come out as they went in.
fn made_again(sheet: &[u8], s: State) -> bool {
    let Ok(head) = sheet_engine::read_sheet(sheet) else {
        return false;
    };
    let t = Table {
        head,
        terms: sheet_engine::terms_part(sheet),
        conditions: sheet_engine::conditions_part(sheet),
    };
    let mut buffer = [cases::BLANK; cases::SPACE];
    let again = sheet_engine::compact(s, &t, &mut buffer);
    match again.answer {
        Ok(size) => (first(&buffer, size) == sheet) & same_state(again.state, s),
        Err(_) => false,
    }
}

fn compact_agrees(case: &mut Cases<impl Read>, s: State, t: Table, room: usize) -> bool {
    let mut buffer = [cases::BLANK; cases::SPACE];
    let out = cases::lend(&mut buffer, room);
    let made = sheet_engine::compact(s, &t, out);
    let expected = case.size();
    let same = case.buffer_agrees(out);
    let ((number, _), _) = expected;
    let after = case.state_after(number, s);
    (told(made.answer, 0) == expected)
        & same
        & same_state(made.state, after)
        & made
            .answer
            .map_or(true, |size| made_again(first(out, size), made.state))
}

// The rest of a case, whose input begins here.
pub fn agrees(case: &mut Cases<impl Read>) -> bool {
    let asked = case.asked();
    let s = case.state();
    let mut terms = [0; cases::SPACE];
    let mut conditions = [0; cases::SPACE];
    let t = case.table(&mut terms, &mut conditions);
    // the length of the output
    case.four();
    (asked.call == 1) & compact_agrees(case, s, t, asked.room)
}
