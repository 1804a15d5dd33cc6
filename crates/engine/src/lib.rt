// The step of a row in a state, the list of steps, taking one, how a state stands and what it waits for, for an accepted table.

#![tactic(auto)]

ghost use Rattle.std.specs.Prelude.{◌≡◌, Ok, ◌+◌, ◌*◌, ◌<◌, ◌≤◌, length, get_or};
ghost use Rattle.laws.specs.Listed.{written};
ghost use Rattle.sheet.specs.Table.{lent_table, row_at};
ghost use Rattle.sheet.specs.Rules.{refuse};
ghost use Rattle.sheet.specs.Accepted.{WellFormed};
ghost use Rattle.evaluate.specs.Values.{value_in};
ghost use Rattle.moves.specs.Steps.{kind_at, listed_of, stepped_of};
ghost use Rattle.moves.specs.Standing.{waiting_of, awaits_of};
ghost use Rattle.flags.specs.Flags.{flagged, Shows};
ghost use Rattle.engine.specs.ByValue.{join_kind, row_kind, kind_from, step_from, join_from, steps_from, waiting_from, taken_answer};

use evaluate::Values;
use rows::term::{TermRow, term_row};
use sheet::{Refusal, Table};
use state::{State, StepKind};

// Which step was taken, or why none; and the state after.
#[derive(Clone, Copy)]
pub struct Stepped {
    pub answer: Result<StepKind, Refusal>,
    pub state: State,
}

// How many rows have a step, and how many rows a state waits for.
#[derive(Clone, Copy)]
pub struct Standing {
    pub steps: usize,
    pub waiting: usize,
}

// 11: the row has no step.
fn no_step(row: usize) -> Refusal
    ensures { result ≡ refuse 11 row }
{
    Refusal {
        number: 11,
        place: row,
    }
}

// A JOIN in front, by the value of its condition.
fn join_kind(row: usize, mode: u8, value: u8) -> Result<StepKind, Refusal>
    ensures { result ≡ join_kind row mode value }
{
    if value == 2 {
        return Ok(StepKind::Open);
    }
    if (value == 1) & front::cleans(mode) {
        return Ok(StepKind::Clean);
    }
    Err(no_step(row))
}

// The step of a row in front.
#[tactic(auto, unfolding(crate::specs::ByValue::row_kind, crate::specs::ByValue::prefix_kind))]
fn row_kind(ts: &[u8], row: usize, mode: u8, vals: &Values) -> Result<StepKind, Refusal>
    requires { row * 4 + 4 ≤ length ts.now }
    ensures { result ≡ row_kind row mode (row_at ts.now row) (value_in vals.now) }
{
    match term_row(ts, row) {
        TermRow::Act { activity, .. } => Ok(StepKind::Act(activity)),
        TermRow::Out { link, value, .. } => Ok(StepKind::Set(link, value as u8)),
        TermRow::Join { condition, .. } => {
            join_kind(row, mode, evaluate::value_in(vals, condition))
        }
        _ => Err(no_step(row)),
    }
}

// The step of any row, from what is reached and the values of the conditions.
fn kind_from(
    ts: &[u8],
    n: usize,
    mode: u8,
    marks: &[u8; 256],
    reached: &[u8; 256],
    vals: &Values,
    row: usize,
) -> Result<StepKind, Refusal>
    requires { (n * 4 ≤ length ts.now) × (n ≤ 256) }
    ensures { result ≡ kind_from ts.now n mode (λ k. get_or marks.now k 0) (flagged reached.now) (value_in vals.now) row }
{
    let none = no_step(row);
    if n <= row {
        return Err(none);
    }
    if reached[row] != 1 {
        return Err(none);
    }
    if !front::waiting_step(ts, row, marks[row]) {
        return Err(none);
    }
    row_kind(ts, row, mode, vals)
}

// The step of a row in a state, or 11 and the row.
pub fn kind(t: &Table, s: State, row: usize) -> Result<StepKind, Refusal>
    requires { WellFormed (lent_table t.now) }
    ensures { result ≡ kind_at (lent_table t.now) s row }
{
    let reached = front::ask(front::Question::Reached, t.terms, t.head.n, &s.marks);
    let vals = evaluate::values(t.head.evaluation, t.conditions, t.head.k, &s.links);
    kind_from(t.terms, t.head.n, s.mode, &s.marks, &reached, &vals, row)
}

// The state after the step of a row.
fn after(t: &Table, s: State, row: usize, step: StepKind) -> State
    requires { WellFormed (lent_table t.now) × (Ok step ≡ kind_at (lent_table t.now) s row) }
    ensures { result ≡ stepped_of (lent_table t.now) s row }
{
    match step {
        StepKind::Clean => effects::dropped(t.head.m, t.terms, t.head.n, s, row),
        _ => effects::taken(t.head.m, t.terms, t.head.n, s, row),
    }
}

// Taking the step of a row; a row without one leaves the state as it is.
pub fn take(t: &Table, s: State, row: usize) -> Stepped
    requires { WellFormed (lent_table t.now) }
    ensures { result ≡ taken_answer (lent_table t.now) s row }
{
    match kind(t, s, row) {
        Ok(step) => Stepped {
            answer: Ok(step),
            state: after(t, s, row, step),
        },
        Err(refusal) => Stepped {
            answer: Err(refusal),
            state: s,
        },
    }
}

fn has_step(
    ts: &[u8],
    n: usize,
    mode: u8,
    marks: &[u8; 256],
    reached: &[u8; 256],
    vals: &Values,
    row: usize,
) -> bool
    requires { (n * 4 ≤ length ts.now) × (n ≤ 256) }
    ensures { result ≡ step_from ts.now n mode marks.now reached.now vals.now row }
{
    kind_from(ts, n, mode, marks, reached, vals, row).is_ok()
}

// Flags the rows that have a step.
fn show_steps(
    flags: &mut [u8; 256],
    ts: &[u8],
    n: usize,
    mode: u8,
    marks: &[u8; 256],
    reached: &[u8; 256],
    vals: &Values,
)
    requires { (length flags.old ≡ 256) × ((n * 4 ≤ length ts.now) × (n ≤ 256)) }
    ensures { Shows (step_from ts.now n mode marks.now reached.now vals.now) n flags.new }
{
    for i in 0..n {
        flags[i] = has_step(ts, n, mode, marks, reached, vals, i) as u8;
    }
}

// The rows that have a step to a lent buffer, and their number; a buffer that is too short is left as it is.
pub fn list(t: &Table, s: State, out: &mut [u8]) -> usize
    requires { WellFormed (lent_table t.now) }
    ensures { (result ≡ length (listed_of (lent_table t.now) s)) × (out.new ≡ written (listed_of (lent_table t.now) s) out.old) }
{
    let reached = front::ask(front::Question::Reached, t.terms, t.head.n, &s.marks);
    let vals = evaluate::values(t.head.evaluation, t.conditions, t.head.k, &s.links);
    let mut flags = [0; 256];
    show_steps(
        &mut flags, t.terms, t.head.n, s.mode, &s.marks, &reached, &vals,
    );
    flags::fill(&flags, t.head.n, out)
}

// A JOIN in front.
fn join_in_front(ts: &[u8], marks: &[u8; 256], reached: &[u8; 256], row: usize) -> bool
    requires { (row * 4 + 4 ≤ length ts.now) × (row < 256) }
    ensures { result ≡ join_from ts.now marks.now reached.now row }
{
    if ts[row * 4] != 3 {
        return false;
    }
    (reached[row] == 1) & front::waits(marks[row])
}

// Flags the JOINs in front.
fn show_joins(flags: &mut [u8; 256], ts: &[u8], n: usize, marks: &[u8; 256], reached: &[u8; 256])
    requires { (length flags.old ≡ 256) × ((n * 4 ≤ length ts.now) × (n ≤ 256)) }
    ensures { Shows (join_from ts.now marks.now reached.now) n flags.new }
{
    for i in 0..n {
        flags[i] = join_in_front(ts, marks, reached, i) as u8;
    }
}

// How a state stands, from what is reached and the values of the conditions; the rows that it waits for go to a lent buffer, and one that is too short is left as it is.
fn stand_by(
    ts: &[u8],
    n: usize,
    mode: u8,
    marks: &[u8; 256],
    reached: &[u8; 256],
    vals: &Values,
    out: &mut [u8],
) -> Standing
    requires { (n * 4 ≤ length ts.now) × (n ≤ 256) }
    ensures { (result.steps ≡ length (steps_from ts.now n mode marks.now reached.now vals.now)) × ((result.waiting ≡ length (waiting_from ts.now n mode marks.now reached.now vals.now)) × (out.new ≡ written (waiting_from ts.now n mode marks.now reached.now vals.now) out.old)) }
{
    let mut flags = [0; 256];
    show_steps(&mut flags, ts, n, mode, marks, reached, vals);
    let steps = flags::count(&flags, n);
    if steps != 0 {
        return Standing { steps, waiting: 0 };
    }
    show_joins(&mut flags, ts, n, marks, reached);
    Standing {
        steps,
        waiting: flags::fill(&flags, n, out),
    }
}

// How a state stands, and the rows that it waits for.
pub fn stand(t: &Table, s: State, out: &mut [u8]) -> Standing
    requires { WellFormed (lent_table t.now) }
    ensures { (result.steps ≡ length (listed_of (lent_table t.now) s)) × ((result.waiting ≡ length (waiting_of (lent_table t.now) s)) × (out.new ≡ written (waiting_of (lent_table t.now) s) out.old)) }
{
    let reached = front::ask(front::Question::Reached, t.terms, t.head.n, &s.marks);
    let vals = evaluate::values(t.head.evaluation, t.conditions, t.head.k, &s.links);
    stand_by(t.terms, t.head.n, s.mode, &s.marks, &reached, &vals, out)
}

// For each row that a state waits for its link, or 255, to a lent buffer, and their number; a buffer that is too short is left as it is.
pub fn wait(t: &Table, s: State, out: &mut [u8]) -> usize
    requires { WellFormed (lent_table t.now) }
    ensures { (result ≡ length (waiting_of (lent_table t.now) s)) × (out.new ≡ written (awaits_of (lent_table t.now) s) out.old) }
{
    let reached = front::ask(front::Question::Reached, t.terms, t.head.n, &s.marks);
    let vals = evaluate::values(t.head.evaluation, t.conditions, t.head.k, &s.links);
    let mut rows = [0; 256];
    let found = stand_by(
        t.terms, t.head.n, s.mode, &s.marks, &reached, &vals, &mut rows,
    );
    let size = found.waiting;
    if out.len() < size {
        return size;
    }
    worth::tell(t.terms, t.conditions, &s.links, &vals, &rows[..size], out);
    size
}
