// The calls. Each judges the sheet or table that it is lent, and answers for every input; the two questions asked of a state alone judge nothing.

#![tactic(auto)]

ghost use Rattle.std.specs.Prelude.{◌≡◌, Ok, length};
ghost use Rattle.laws.specs.Checks.{checked};
ghost use Rattle.sheet.specs.Table.{lent_table};
ghost use Rattle.sheet.specs.Rules.{no, judged};
ghost use Rattle.sheet.specs.Sheet.{settings_of, terms_of, conditions_of};
ghost use Rattle.moves.specs.Steps.{Sized};
ghost use Rattle.codec.specs.Answers.{Bytes, read_of, part_of, write_of, written_of};
ghost use Rattle.sheet_engine.specs.Answers.{verdict_answer, start_answer, acts_left, links_unset, call_checks, list_answer, list_buffer, standing_answer, standing_buffer, waits_answer, waits_buffer, kind_answer, step_answer, compact_answer, compact_buffer, damage_answer, damage_buffer};

use engine::Stepped;
use sheet::{Head, Refusal, Table};
use state::{State, StepKind};
use verdict::Verdict;

// How a state stands: steps are listed; nothing is left; it waits for so many JOIN rows.
#[derive(Clone, Copy)]
pub enum Stands {
    Enabled,
    Finished,
    Waiting(usize),
}

// The size of the compacted sheet, or number and place; and the state that goes with the sheet, or the state as it was.
#[derive(Clone, Copy)]
pub struct Compacted {
    pub answer: Result<usize, Refusal>,
    pub state: State,
}

// The head of a sheet.
pub fn read_sheet(s: &[u8]) -> Result<Head, Refusal>
    ensures value { result ≡ read_of s.now }
    ensures bytes { Bytes s.now }
{
    codec::read(s)
}

// The bodies of a sheet, parts of the lent bytes; empty where the sheet is refused.
pub fn settings_part(s: &[u8]) -> &[u8]
    ensures { result.now ≡ part_of s.now (settings_of s.now) }
{
    codec::settings(s)
}

pub fn terms_part(s: &[u8]) -> &[u8]
    ensures { result.now ≡ part_of s.now (terms_of s.now) }
{
    codec::terms(s)
}

pub fn conditions_part(s: &[u8]) -> &[u8]
    ensures { result.now ≡ part_of s.now (conditions_of s.now) }
{
    codec::conditions(s)
}

// Whether a table is accepted, or its refusal.
pub fn judge_table(t: &Table) -> Result<(), Refusal>
    ensures { result ≡ judged (lent_table t.now) }
{
    judge::judge(t)
}

// The bytes of a table.
pub fn write_sheet(t: &Table, out: &mut [u8]) -> Result<usize, Refusal>
    ensures { (result ≡ write_of t.now.head t.now.terms.now t.now.conditions.now (length out.old)) × (out.new ≡ written_of t.now.head t.now.terms.now t.now.conditions.now out.old) }
{
    codec::write(t, out)
}

// The verdict of a table.
pub fn give_verdict(t: &Table) -> Result<Verdict, Refusal>
    ensures { result ≡ verdict_answer (lent_table t.now) }
{
    match judge::judge(t) {
        Ok(()) => Ok(verdict::give(t)),
        Err(refusal) => Err(refusal),
    }
}

// A fresh state of a table, in a mode.
pub fn start(t: &Table, mode: u8) -> Result<State, Refusal>
    ensures { result ≡ start_answer (lent_table t.now) mode }
{
    judge::judge(t)?;
    if !fitting::mode_ok(mode) {
        return Err(Refusal {
            number: 9,
            place: mode as usize,
        });
    }
    Ok(counts::counted(t.head.m, t.terms, t.head.n, state::fresh(mode)))
}

// Is there work left? How many ACT rows are in the remainder, as the state says; nothing is walked, and nothing is judged.
pub fn acts_left(s: State) -> u8
    ensures { result ≡ acts_left s }
{
    s.acts
}

// How many links of the sheet are unset, as the state says.
pub fn links_unset(s: State) -> u8
    ensures { result ≡ links_unset s }
{
    s.unset
}

// The refusal of a table and a state.
fn judge_state(s: State, t: &Table) -> Result<(), Refusal>
    ensures { result ≡ checked no (Ok tt) (call_checks (lent_table t.now) s) }
{
    judge::judge(t)?;
    fitting::fit(t.head.m, t.head.n, t.terms, s)
}

// The rows that have a step, rising, to a lent buffer, and their number; 12 with the size that is needed.
pub fn list_steps(s: State, t: &Table, out: &mut [u8]) -> Result<usize, Refusal>
    ensures value { (result ≡ list_answer (lent_table t.now) s (length out.old)) × (out.new ≡ list_buffer (lent_table t.now) s out.old) }
    ensures sized { Sized s }
{
    judge_state(s, t)?;
    let room = out.len();
    let size = engine::list(t, s, out);
    if room < size {
        return Err(Refusal {
            number: 12,
            place: size,
        });
    }
    Ok(size)
}

// How a state stands, and the JOIN rows that it waits for, rising, to a lent buffer; 12 with the size that is needed.
pub fn standing(s: State, t: &Table, out: &mut [u8]) -> Result<Stands, Refusal>
    ensures value { (result ≡ standing_answer (lent_table t.now) s (length out.old)) × (out.new ≡ standing_buffer (lent_table t.now) s out.old) }
    ensures sized { Sized s }
{
    judge_state(s, t)?;
    let room = out.len();
    let found = engine::stand(t, s, out);
    let waiting = found.waiting;
    if room < waiting {
        return Err(Refusal {
            number: 12,
            place: waiting,
        });
    }
    if found.steps != 0 {
        return Ok(Stands::Enabled);
    }
    if waiting == 0 {
        return Ok(Stands::Finished);
    }
    Ok(Stands::Waiting(waiting))
}

// What the rows wait for that `standing` tells, a byte for each, in their order, to a lent buffer, and their number: the link, or 255 where the condition is false; 12 with the size that is needed.
pub fn waits_for(s: State, t: &Table, out: &mut [u8]) -> Result<usize, Refusal>
    ensures value { (result ≡ waits_answer (lent_table t.now) s (length out.old)) × (out.new ≡ waits_buffer (lent_table t.now) s out.old) }
    ensures sized { Sized s }
{
    judge_state(s, t)?;
    let room = out.len();
    let bytes = engine::wait(t, s, out);
    if room < bytes {
        return Err(Refusal {
            number: 12,
            place: bytes,
        });
    }
    Ok(bytes)
}

// The step of a row; 11 and the row where it has none.
pub fn step_kind(s: State, t: &Table, row: usize) -> Result<StepKind, Refusal>
    ensures value { result ≡ kind_answer (lent_table t.now) s row }
    ensures sized { Sized s }
{
    judge_state(s, t)?;
    engine::kind(t, s, row)
}

// Taking the step of a row: the kind and the new state; a refusal gives the state back as it was.
pub fn take_step(s: State, t: &Table, row: usize) -> Stepped
    ensures value { result ≡ step_answer (lent_table t.now) s row }
    ensures sized { Sized s }
{
    match judge_state(s, t) {
        Ok(()) => engine::take(t, s, row),
        Err(refusal) => Stepped {
            answer: Err(refusal),
            state: s,
        },
    }
}

// Taking a step on the caller's own state: the record is stored where a step was taken, else left as it was.
pub fn step_in_place(state: &mut State, t: &Table, row: usize) -> Result<StepKind, Refusal>
    ensures { (result ≡ (step_answer (lent_table t.now) state.old row).answer) × (state.new ≡ (step_answer (lent_table t.now) state.old row).state) × Sized state.old }
{
    let next = take_step(*state, t, row);
    if next.answer.is_ok() {
        *state = next.state;
    }
    next.answer
}

// The compacted sheet of a table and a state, its bytes to a lent buffer, and the state in which it goes on; 12 with the size that is needed. A refusal gives the state back as it was.
pub fn compact(s: State, t: &Table, out: &mut [u8]) -> Compacted
    ensures value { (result ≡ compact_answer (lent_table t.now) s (length out.old)) × (out.new ≡ compact_buffer (lent_table t.now) s out.old) }
    ensures sized { Sized s }
{
    match judge_state(s, t) {
        Ok(()) => {
            let room = out.len();
            let size = collect::write(t, s, out);
            if room < size {
                return Compacted {
                    answer: Err(Refusal {
                        number: 12,
                        place: size,
                    }),
                    state: s,
                };
            }
            Compacted {
                answer: Ok(size),
                state: s.restart(),
            }
        }
        Err(refused) => Compacted {
            answer: Err(refused),
            state: s,
        },
    }
}

// The small sheet that shows what the failing condition of a JOIN row does, its bytes to a lent buffer: 15 and the row where it has none, 12 with the size that is needed.
pub fn damage_sheet(t: &Table, row: usize, out: &mut [u8]) -> Result<usize, Refusal>
    ensures { (result ≡ damage_answer (lent_table t.now) row (length out.old)) × (out.new ≡ damage_buffer (lent_table t.now) row out.old) }
{
    judge::judge(t)?;
    showing::show(t, row, out)
}
