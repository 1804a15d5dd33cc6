// Cases of the small sheet that shows the damage: its bytes in the lent buffer; and, run from its start by the lowest step each time, it does activities 1 and 2 with cleaning, and without it 1 alone.

#![tactic(auto)]

use cases::{Cases, first};
use sheet::Table;
use state::{State, StepKind};
use std::io::Read;

// The row with the lowest step.
fn lowest(s: State, t: Table) -> Option<u8> {
    let mut rows = [0; 256];
    match sheet_engine::list_steps(s, &t, &mut rows) {
        Ok(0) | Err(_) => None,
        Ok(_) => Some(rows[0]),
    }
}

// What is done from a start in a mode, by no more steps than a sheet has rows: the activities, as the digits of a number; nothing where a call is refused.
fn done(mode: u8, t: Table) -> Option<usize> {
    let mut s = sheet_engine::start(&t, mode).ok()?;
    let mut done = 0;
    for _ in 0..256 {
        let Some(row) = lowest(s, t) else {
            return Some(done);
        };
        let next = sheet_engine::take_step(s, &t, row as usize);
        if let StepKind::Act(activity) = next.answer.ok()? {
            done = (done % 100) * 10 + activity as usize;
        }
        s = next.state;
    }
    Some(done)
}

fn shows(sheet: &[u8]) -> bool {
    let Ok(head) = sheet_engine::read_sheet(sheet) else {
        return false;
    };
    let t = Table {
        head,
        terms: sheet_engine::terms_part(sheet),
        conditions: sheet_engine::conditions_part(sheet),
    };
    (done(1, t) == Some(12)) & (done(0, t) == Some(1))
}

fn damage_agrees(case: &mut Cases<impl Read>, t: Table, row: usize, room: usize) -> bool {
    let mut buffer = [cases::BLANK; cases::SPACE];
    let out = cases::lend(&mut buffer, room);
    let answer = sheet_engine::damage_sheet(&t, row, out);
    let same = case.size_agrees(answer, out);
    same & answer.map_or(true, |size| shows(first(out, size)))
}

// The rest of a case, whose input begins here.
pub fn agrees(case: &mut Cases<impl Read>) -> bool {
    let asked = case.asked();
    let mut terms = [0; cases::SPACE];
    let mut conditions = [0; cases::SPACE];
    let t = case.table(&mut terms, &mut conditions);
    // the length of the output
    case.four();
    (asked.call == 1) & damage_agrees(case, t, asked.argument, asked.room)
}
