// Cases of the calls that tell how a state stands and which links it waits for (call 1). The cases lend nothing and tell the rows all the same: each is tried with that, with more than enough, with just enough, and with a byte less.

#![tactic(auto)]

use cases::{Cases, NOTHING, Said, first, told};
use sheet::Table;
use sheet_engine::Stands;
use state::State;
use std::io::Read;

// The refusal; a word, and how many rows are waited for.
type Told = cases::Told<Said>;

fn counted(word: u8, x: usize) -> Said {
    Said { word, x, y: 0 }
}

// The words are 0 steps are listed, 1 finished, 2 waiting.
fn stands_said(stands: Stands) -> Said {
    match stands {
        Stands::Enabled => counted(0, 0),
        Stands::Finished => counted(1, 0),
        Stands::Waiting(rows) => counted(2, rows),
    }
}

// How many rows an output of that length tells: number, place and word take 6 bytes of it, and a row 1, or 2 with its link.
fn rows_told(length: usize, linked: bool) -> usize {
    let rows = length.saturating_sub(6);
    if linked { rows / 2 } else { rows }
}

// An output of that length up to its rows, which follow.
fn read_told(case: &mut Cases<impl Read>, length: usize, linked: bool) -> Told {
    let (number, place) = case.refusal();
    let said = if number == 0 {
        counted(case.byte(), rows_told(length, linked))
    } else {
        NOTHING
    };
    ((number, place), said)
}

// The rows and, where the file has them, the link behind each, at the start of two buffers: no state waits for more than 256.
fn read_rows(
    case: &mut Cases<impl Read>,
    count: usize,
    linked: bool,
    rows: &mut [u8; 256],
    links: &mut [u8; 256],
) {
    for i in 0..count.min(256) {
        rows[i] = case.byte();
        if linked {
            links[i] = case.byte();
        }
    }
}

// A call with so much lent: what it answers, and all that the buffer holds after it.
fn call_agrees<Call: Fn(&mut [u8]) -> Told>(
    call: &Call,
    room: usize,
    expected: Told,
    filled: &[u8; 256],
) -> bool
    requires { Call.IsAlwaysCallable call.now }
{
    let mut buffer = [cases::BLANK; 256];
    let out = cases::lend(&mut buffer, room);
    let told = call(out);
    (told == expected) & (*out == *first(filled, out.len()))
}

// A call, with buffers of four lengths: where one is too short for the rows, 12 and their number, and it stays as it was; behind what is told, a buffer holds what it held before.
fn rooms_agree<Call: Fn(&mut [u8]) -> Told>(
    call: &Call,
    room: usize,
    expected: Told,
    filled: &[u8; 256],
) -> bool
    requires { Call.IsAlwaysCallable call.now }
{
    let (_, Said { x: rows, .. }) = expected;
    [room, 256, rows, rows.saturating_sub(1)]
        .iter()
        .all(|room| {
            if *room < rows {
                call_agrees(call, *room, ((12, rows), NOTHING), &[cases::BLANK; 256])
            } else {
                call_agrees(call, *room, expected, filled)
            }
        })
}

// The rest of a case, whose input begins here; each row of its output has its link behind it, or not: without links one of the two calls is tried alone.
pub fn agrees(case: &mut Cases<impl Read>, linked: bool) -> bool {
    let asked = case.asked();
    let s = case.state();
    let mut terms = [0; cases::SPACE];
    let mut conditions = [0; cases::SPACE];
    let t = case.table(&mut terms, &mut conditions);
    let length = case.four();
    let expected = read_told(case, length, linked);
    let (refused, said) = expected;
    let mut rows = [cases::BLANK; 256];
    let mut links = [cases::BLANK; 256];
    read_rows(case, said.x, linked, &mut rows, &mut links);
    let stands = |out: &mut [u8]| {
        let answer = sheet_engine::standing(s, &t, out);
        told(answer.map(stands_said), NOTHING)
    };
    let waits = |out: &mut [u8]| {
        let answer = sheet_engine::waits_for(s, &t, out);
        told(answer.map(|size| counted(0, size)), NOTHING)
    };
    let waited = (refused, counted(0, said.x));
    (asked.call == 1)
        & rooms_agree(&stands, asked.room, expected, &rows)
        & (!linked || rooms_agree(&waits, asked.room, waited, &links))
}
