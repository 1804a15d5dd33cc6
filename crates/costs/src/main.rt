// One call, or all but the call, for counting instructions: two runs that differ in the second letter differ by one call.
// Standard input: r, p, j, w, v, s, q, u, l, h, a, k, t, i or c (read, terms part, judge, write, verdict, start, ACTs left, links unset, list, how a state stands, what it waits for, kind, step, step on a lent record, compact); 1 to make the call, 0 not to; the mode; the row asked for; the number of steps taken first, and their rows; the sheet. The answer is printed as three numbers of four hex digits, so that each costs the same.

#![tactic(auto)]

use sheet::{Head, Refusal, Table};
use sheet_engine::Stands;
use state::{State, StepKind};
use std::io;
use verdict::Verdict;

// What is printed of an answer.
type Seen = [usize; 3];

// The call's letter, whether it is made, the mode, and the row that is asked for, which is also the place that is shown of a buffer or a state.
#[derive(Clone, Copy)]
struct Asked {
    call: u8,
    made: bool,
    mode: u8,
    row: u8,
}

fn refused_seen(refusal: Refusal) -> Seen {
    [refusal.number as usize, refusal.place, 0]
}

// The links, rows and conditions of a sheet.
fn sheet_seen(answer: Result<Head, Refusal>) -> Seen {
    match answer {
        Ok(h) => [h.m, h.n, h.k],
        Err(refusal) => refused_seen(refusal),
    }
}

// Number and place; 0 for a table that is accepted.
fn judged_seen(answer: Result<(), Refusal>) -> Seen {
    match answer {
        Ok(()) => [0; 3],
        Err(refusal) => refused_seen(refusal),
    }
}

// Row, number and link of a failure; 0 for pass.
fn verdict_seen(answer: Result<Verdict, Refusal>) -> Seen {
    match answer {
        Ok(Verdict::Pass) => [0; 3],
        Ok(Verdict::Fail { row, number, link }) => [row, number, link],
        Err(refusal) => refused_seen(refusal),
    }
}

// The size of a sheet or a list, and its byte at a place.
fn size_seen(answer: Result<usize, Refusal>, out: &[u8; 2066], at: u8) -> Seen {
    match answer {
        Ok(size) => [size, out[at as usize] as usize, 0],
        Err(refusal) => refused_seen(refusal),
    }
}

// 1 act, 2 set, 3 open, 4 clean, with their values.
fn kind_seen(answer: Result<StepKind, Refusal>) -> Seen {
    match answer {
        Ok(StepKind::Act(a)) => [1, a as usize, 0],
        Ok(StepKind::Set(l, v)) => [2, l as usize, v as usize],
        Ok(StepKind::Open) => [3, 0, 0],
        Ok(StepKind::Clean) => [4, 0, 0],
        Err(refusal) => refused_seen(refusal),
    }
}

// The mode, the mark of a row and the value of a link.
fn state_seen(s: &State, at: u8) -> Seen {
    let link = if at < 64 { s.links[at as usize] } else { 0 };
    [
        s.mode as usize,
        s.marks[at as usize] as usize,
        link as usize,
    ]
}

// ... and in the place of the mode the two counts, so that the compiler leaves out neither.
fn after_seen(s: &State, at: u8) -> Seen {
    let [_, mark, link] = state_seen(s, at);
    [s.acts as usize + 256 * (s.unset as usize), mark, link]
}

// 0 where steps are listed, 1 finished, 2 waiting, with the number of rows and the row at a place.
fn standing_seen(answer: Result<Stands, Refusal>, out: &[u8; 2066], at: u8) -> Seen {
    match answer {
        Ok(Stands::Enabled) => [0; 3],
        Ok(Stands::Finished) => [1, 0, 0],
        Ok(Stands::Waiting(rows)) => [2, rows, out[at as usize] as usize],
        Err(refusal) => refused_seen(refusal),
    }
}

// The state of a start; that of zeros where it is refused.
fn started(mode: u8, t: Table) -> State {
    match sheet_engine::start(&t, mode) {
        Ok(state) => state,
        Err(_) => state::fresh(0),
    }
}

// The size of the compacted sheet, its byte at a place, and what `after_seen` shows of the state there, in one number.
fn compact_seen(s: State, t: Table, at: u8, out: &mut [u8; 2066]) -> Seen {
    let made = sheet_engine::compact(s, &t, out);
    let [size, byte, _] = size_seen(made.answer, out, at);
    let [counts, mark, link] = after_seen(&made.state, at);
    [size, byte, counts ^ mark ^ link]
}

// A letter is the input's own, and matched here alone.
fn called(asked: Asked, s: State, t: Table, out: &mut [u8; 2066]) -> Seen {
    let at = asked.row;
    let row = at as usize;
    match asked.call {
        b'j' => judged_seen(sheet_engine::judge_table(&t)),
        b'w' => size_seen(sheet_engine::write_sheet(&t, out), out, at),
        b'v' => verdict_seen(sheet_engine::give_verdict(&t)),
        b's' => after_seen(&started(asked.mode, t), at),
        b'q' => [sheet_engine::acts_left(s) as usize, 0, 0],
        b'u' => [sheet_engine::links_unset(s) as usize, 0, 0],
        b'l' => size_seen(sheet_engine::list_steps(s, &t, out), out, at),
        b'h' => standing_seen(sheet_engine::standing(s, &t, out), out, at),
        b'a' => size_seen(sheet_engine::waits_for(s, &t, out), out, at),
        b'k' => kind_seen(sheet_engine::step_kind(s, &t, row)),
        b'c' => compact_seen(s, t, at, out),
        b'i' => after_seen(&lent::step_lent(s, &t, row).state, at),
        _ => after_seen(&sheet_engine::take_step(s, &t, row).state, at),
    }
}

// The state after steps; one that is refused changes nothing.
fn after(s: State, t: Table, rows: &[u8]) -> State {
    let mut state = s;
    for row in rows {
        state = sheet_engine::take_step(state, &t, *row as usize).state;
    }
    state
}

// The state is made and the buffer cleared in both runs, so that neither is counted with the call.
fn answer(asked: Asked, rows: &[u8], t: Table) -> Seen {
    let s = after(started(asked.mode, t), t, rows);
    let mut out = [0; 2066];
    if asked.made {
        return called(asked, s, t, &mut out);
    }
    state_seen(&s, asked.row)
}

// Reading alone, or a part; any other call reads the sheet before.
fn run(asked: Asked, rows: &[u8], sheet: &[u8]) -> Seen {
    if (asked.call == b'r') | (asked.call == b'p') {
        return match (asked.made, asked.call) {
            (false, _) => [sheet.len(), 0, 0],
            (true, b'p') => [sheet_engine::terms_part(sheet).len(), 0, 0],
            _ => sheet_seen(sheet_engine::read_sheet(sheet)),
        };
    }
    match sheet_engine::read_sheet(sheet) {
        Ok(head) => {
            let terms = sheet_engine::terms_part(sheet);
            let conditions = sheet_engine::conditions_part(sheet);
            let t = Table {
                head,
                terms,
                conditions,
            };
            answer(asked, rows, t)
        }
        Err(refusal) => refused_seen(refusal),
    }
}

// In hex, digit by digit: with options, each digit that is no zero in front would cost more.
fn print(rt: &impl Print, x: usize, end: &str) -> io::Result<()> {
    print!(rt;
        "{:x}{:x}{:x}{:x}{end}",
        x / 4096,
        x / 256 % 16,
        x / 16 % 16,
        x % 16
    )
}

fn main(rt: HostRuntime) -> io::Result<()> {
    let mut buffer = [0; 4096];
    let input = filling::fill_until_failure(&mut rt.stdin(), &mut buffer);
    if input.len() < 5 {
        return Ok(());
    }
    let asked = Asked {
        call: input[0],
        made: input[1] == b'1',
        mode: input[2],
        row: input[3],
    };
    let count = input[4] as usize;
    let rest = &input[5..];
    let seen = if rest.len() <= count {
        [1, 0, 0]
    } else {
        run(asked, &rest[..count], &rest[count..])
    };
    print(&rt, seen[0], " ")?;
    print(&rt, seen[1], " ")?;
    print(&rt, seen[2], "\n")
}
