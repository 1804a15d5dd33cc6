// Cases of calls on a table: it is judged, put to the verdict, started and written (call 1), and what was written is read back.

#![tactic(auto)]

use cases::{Cases, Refused, first, told};
use sheet::{Head, Refusal, Table};
use std::io::Read;

fn same_head(a: Head, b: Head) -> bool {
    (a.evaluation == b.evaluation) & (a.m == b.m) & (a.n == b.n) & (a.k == b.k)
}

// The settings are evaluation and m.
fn settings_agree(part: &[u8], h: Head) -> bool {
    (part.len() == 2) && (part[0] == h.evaluation) & (part[1] as usize == h.m)
}

// The part is the first rows of those that were lent, as many as the table has.
fn rows_agree(part: &[u8], rows: usize, lent: &[u8]) -> bool {
    let size = part.len();
    (size % 4 == 0) & (size / 4 == rows) & (part == first(lent, size))
}

// A written sheet read back: its head, and the three parts.
fn sheet_agrees(sheet: &[u8], t: Table) -> bool {
    match sheet_engine::read_sheet(sheet) {
        Ok(head) => {
            same_head(head, t.head)
                & settings_agree(sheet_engine::settings_part(sheet), t.head)
                & rows_agree(sheet_engine::terms_part(sheet), t.head.n, t.terms)
                & rows_agree(sheet_engine::conditions_part(sheet), t.head.k, t.conditions)
        }
        Err(_) => false,
    }
}

// A part of a refused sheet is empty.
fn no_parts(sheet: &[u8]) -> bool {
    sheet_engine::settings_part(sheet).is_empty()
        & sheet_engine::terms_part(sheet).is_empty()
        & sheet_engine::conditions_part(sheet).is_empty()
}

// A sheet without its last byte is refused: 21 bytes are too few; the conditions of a longer one do not end with the file.
fn cut_agrees(cut: &[u8]) -> bool {
    let expected = if cut.len() < 22 { (1, 0) } else { (2, 11) };
    match sheet_engine::read_sheet(cut) {
        Ok(_) => false,
        Err(refusal) => ((refusal.number, refusal.place) == expected) & no_parts(cut),
    }
}

fn written_agrees(out: &[u8], size: usize, t: Table) -> bool {
    (size != 0) && sheet_agrees(first(out, size), t) & cut_agrees(first(out, size - 1))
}

// Whether a call that answers something is refused as it has to be.
fn refused_alike<T: Drop>(answer: Result<T, Refusal>, expected: Refused) -> bool {
    told(answer.map(|_| ()), ()) == (expected, ())
}

// Judging, the verdict and starting answer what writing does, but that a short buffer is no fault of the table; what was written is read back.
fn others_agree(answer: Result<usize, Refusal>, out: &[u8], t: Table) -> bool {
    let expected = match told(answer, 0) {
        ((12, _), _) => (0, 0),
        (refused, _) => refused,
    };
    let judged = sheet_engine::judge_table(&t);
    let verdict = sheet_engine::give_verdict(&t);
    let started = sheet_engine::start(&t, 1);
    refused_alike(judged, expected)
        & refused_alike(verdict, expected)
        & refused_alike(started, expected)
        & answer.map_or(true, |size| written_agrees(out, size, t))
}

fn write_agrees(case: &mut Cases<impl Read>, t: Table, room: usize) -> bool {
    let mut buffer = [cases::BLANK; cases::SPACE];
    let out = cases::lend(&mut buffer, room);
    let answer = sheet_engine::write_sheet(&t, out);
    let same = case.size_agrees(answer, out);
    same & others_agree(answer, out, t)
}

// The rest of a case, whose input begins here.
pub fn agrees(case: &mut Cases<impl Read>) -> bool {
    let asked = case.asked();
    let mut terms = [0; cases::SPACE];
    let mut conditions = [0; cases::SPACE];
    let t = case.table(&mut terms, &mut conditions);
    // the length of the output
    case.four();
    (asked.call == 1) & write_agrees(case, t, asked.room)
}
