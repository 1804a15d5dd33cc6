// What the program prints, from what it reads: input bytes to output bytes.

#![tactic(auto)]

ghost use Rattle.std.specs.Prelude.{◌≡◌, ◌<◌, ◌≤◌, length, take};
ghost use Rattle.laws.specs.Checks.{checked};
ghost use Rattle.laws.specs.Listed.{written};
ghost use Rattle.lines.specs.Page.{page, added, Puts};
ghost use Rattle.moves.specs.Steps.{listed_of};
ghost use Rattle.moves.specs.Standing.{waiting_of, awaits_of};
ghost use Rattle.lines.specs.Lines.{refused_line, enabled_word, rows_line, waiting_line};
ghost use Rattle.sheet_engine.specs.Answers.{start_checks};
ghost use Rattle.printing.specs.Printed.{end_lines, step_lines, run_lines, sheet_lines, printed};
ghost use Rattle.sheet.specs.Table.{lent_table};
ghost use Rattle.promises.specs.Calls.{Accepted};

use lines::Page;
use sheet::{Refusal, Table};
use sheet_engine::Stands;
use state::State;

// No output is longer: the verdict's line, 256 steps, the links, and 256 rows that are waited for, each with its link.
pub const LONGEST: usize = 25 + 256 * 18 + 71 + 2056;

// The rows that have a step.
fn listed_line(out: &mut Page, s: State, t: &Table)
    requires { Accepted (lent_table t.now) s }
    ensures { Puts out.old out.new (rows_line enabled_word (listed_of (lent_table t.now) s)) }
{
    let mut rows = [0; 256];
    match sheet_engine::list_steps(s, t, &mut rows) {
        Ok(count) => out.enabled_line(&rows[..count]),
        Err(refusal) => out.refused_line(refusal),
    }
}

// The rows that are waited for, each with its link.
fn waited_line(out: &mut Page, s: State, t: &Table, rows: &[u8])
    requires { Accepted (lent_table t.now) s × (rows.now ≡ waiting_of (lent_table t.now) s) }
    ensures { Puts out.old out.new (waiting_line (waiting_of (lent_table t.now) s) (awaits_of (lent_table t.now) s)) }
{
    let mut links = [0; 256];
    match sheet_engine::waits_for(s, t, &mut links) {
        Ok(count) => out.waiting_line(rows, &links[..count]),
        Err(refusal) => out.refused_line(refusal),
    }
}

// The links, and how the state stands.
fn end_lines(out: &mut Page, s: State, t: &Table)
    requires { Accepted (lent_table t.now) s }
    ensures { Puts out.old out.new (end_lines (lent_table t.now) s) }
{
    let links = s.links;
    out.links_line(t.head.m, &links);
    let mut rows = [0; 256];
    match sheet_engine::standing(s, t, &mut rows) {
        Ok(Stands::Enabled) => listed_line(out, s, t),
        Ok(Stands::Finished) => out.finished_line(),
        Ok(Stands::Waiting(count)) => waited_line(out, s, t, &rows[..count]),
        Err(refusal) => out.refused_line(refusal),
    }
}

// The steps, each on its line, up to the first that is refused; then the end.
fn step_lines(out: &mut Page, s: State, t: &Table, rows: &[u8])
    requires { Accepted (lent_table t.now) s }
    ensures { Puts out.old out.new (step_lines (lent_table t.now) s rows.now) }
{
    let mut state = s;
    for row in rows {
        let next = sheet_engine::take_step(state, t, *row as usize);
        match next.answer {
            Ok(step) => {
                out.step_line(*row, step);
                state = next.state;
            }
            Err(refusal) => {
                out.refused_line(refusal);
                return;
            }
        }
    }
    end_lines(out, state, t)
}

// The verdict and the steps of a sheet that is accepted, in a mode.
fn run_lines(out: &mut Page, mode: u8, t: &Table, rows: &[u8])
    ensures { Puts out.old out.new (checked refused_line (run_lines (lent_table t.now) mode rows.now) (start_checks (lent_table t.now) mode)) }
{
    match sheet_engine::start(t, mode) {
        Ok(state) => {
            out.verdict_line(sheet_engine::give_verdict(t));
            step_lines(out, state, t, rows)
        }
        Err(refusal) => out.refused_line(refusal),
    }
}

// A sheet's refusal, or its run.
fn sheet_lines(out: &mut Page, mode: u8, sheet: &[u8], rows: &[u8])
    ensures { Puts out.old out.new (sheet_lines mode sheet.now rows.now) }
{
    match sheet_engine::read_sheet(sheet) {
        Ok(head) => {
            let terms = sheet_engine::terms_part(sheet);
            let conditions = sheet_engine::conditions_part(sheet);
            let t = Table {
                head,
                terms,
                conditions,
            };
            run_lines(out, mode, &t, rows)
        }
        Err(refusal) => out.refused_line(refusal),
    }
}

// 1: the input ends before the sheet is complete.
const CUT: Refusal = Refusal {
    number: 1,
    place: 0,
};

// What is printed for an input.
fn input_lines(out: &mut Page, input: &[u8])
    ensures { Puts out.old out.new (printed input.now) }
{
    let length = input.len();
    if length < 3 {
        out.refused_line(CUT);
        return;
    }
    let size = u16::from_le_bytes([input[1], input[2]]) as usize;
    if length - 3 < size {
        out.refused_line(CUT);
        return;
    }
    let end = 3 + size;
    sheet_lines(out, input[0], &input[3..end], &input[end..])
}

// What is printed, as far as there is room.
fn lines_of(input: &[u8], out: &mut [u8]) -> usize
    ensures { page out.new result ≡ added (page out.old 0) (printed input.now) }
{
    let mut lines = Page::new(out);
    input_lines(&mut lines, input);
    lines.len()
}

// What is printed, for any input. The buffer holds every output. The second clause, which follows from the first, is what a caller needs to take the output as a part of the buffer.
pub fn print(input: &[u8], out: &mut [u8; LONGEST]) -> usize
    ensures value { (result ≡ length (printed input.now)) × (out.new ≡ written (printed input.now) out.old) }
    ensures upper_bound { (result ≤ length out.new) × (result ≡ length (take result out.new)) }
{
    lines_of(input, out)
}
