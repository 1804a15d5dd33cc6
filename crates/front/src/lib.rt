// Three questions about each row that its parent answers: whether one reaches it, whether it is held, whether it is live. One rising pass over the rows for each.

#![tactic(auto)]

ghost use Rattle.std.specs.Prelude.{◌≡◌, ◌+◌, ◌*◌, ◌≤◌, length, get_or, true, false, ◌&&◌, not, eqb};
ghost use Rattle.laws.specs.Tests.{bit};
ghost use Rattle.calculus.specs.Process.{pick};
ghost use Rattle.calculus.specs.Places.{cleans};
ghost use Rattle.steps.specs.Marks.{stand, open_branches};
ghost use Rattle.steps.specs.InFront.{waits_by, passed_by, undecided, waiting_step, opens};
ghost use Rattle.steps.specs.Push.{set_if, handed};
ghost use Rattle.sheet.specs.Table.{row_at};
ghost use Rattle.sheet.specs.Accepted.{RowsLent};
ghost use Rattle.moves.specs.Steps.{mode_of};
ghost use Rattle.moves.specs.Fits.{keeps_by, keeps};
ghost use Rattle.rows.specs.Term.{row_of};
ghost use Rattle.flags.specs.Flags.{Shows};
ghost use Rattle.front.specs.Asked.{next_by, next_of, top_of, asked_at};

use rows::term::TermRow;

// What is asked of a row: whether one reaches it, whether it is held, whether it is live.
#[derive(Clone, Copy)]
pub enum Question {
    Reached,
    Held,
    Live,
}

// The mode drops a JOIN whose condition is false.
pub fn cleans(mode: u8) -> bool
    ensures { result ≡ cleans (mode_of mode) }
{
    mode == 1
}

// The mark of an ACT, OUT or JOIN that waits.
pub fn waits(mark: u8) -> bool
    ensures { result ≡ waits_by (stand mark) }
{
    (mark != 1) & (mark != 4)
}

// The mark of a PICK of which no branch is taken.
pub fn undecided(mark: u8) -> bool
    ensures { result ≡ undecided (open_branches pick mark) }
{
    (mark != 2) & (mark != 3)
}

// A branch of a PICK is open. Marks are bytes of a `State`, so they are matched as numbers.
#[tactic(auto, unfolding(steps::specs::Marks::open_branches, steps::specs::InFront::opens))]
fn opens(mark: u8, right: bool) -> bool
    ensures { result ≡ opens (open_branches pick mark) right }
{
    match mark {
        2 => !right,
        3 => right,
        _ => true,
    }
}

// A waiting ACT, OUT or JOIN.
#[tactic(auto, unfolding(steps::specs::InFront::waiting_step))]
pub fn waiting_step(ts: &[u8], row: usize, mark: u8) -> bool
    requires { row * 4 + 4 ≤ length ts.now }
    ensures { result ≡ waiting_step (row_at ts.now row) mark }
{
    match rows::term::term_row(ts, row) {
        TermRow::Act { .. } | TermRow::Out { .. } | TermRow::Join { .. } => waits(mark),
        _ => false,
    }
}

// The row's remainder has what is below it.
#[tactic(auto, using(crate::proofs::ByKind::keeps_mark), unfolding(moves::specs::Fits::keeps, steps::specs::Marks::open_branches, steps::specs::InFront::opens))]
pub fn keeps(node: TermRow, mark: u8, right: bool) -> bool
    ensures { result ≡ keeps (row_of node) mark right }
{
    match node {
        TermRow::Nil => false,
        TermRow::Act { .. } | TermRow::Out { .. } | TermRow::Join { .. } => mark != 4,
        TermRow::Pick { .. } => opens(mark, right),
        TermRow::Flow { .. } => true,
    }
}

// What a row hands to a child, by what it was handed itself: whether one goes on from it, it is a waiting step, its remainder has what is below.
#[tactic(auto, using(laws::proofs::Tests::or_is), unfolding(crate::specs::Asked::next_by))]
fn next_by(question: Question, leads: bool, waits: bool, keeps: bool, own: bool) -> bool
    ensures { result ≡ next_by question leads waits keeps own }
{
    match question {
        Question::Reached => own & leads,
        Question::Held => own | waits,
        Question::Live => own & keeps,
    }
}

// An ACT, OUT or JOIN.
fn step_next(question: Question, mark: u8, own: bool) -> bool
    ensures { result ≡ next_by question (passed_by (stand mark)) (waits_by (stand mark)) (keeps_by (stand mark)) own }
{
    next_by(question, mark == 1, waits(mark), mark != 4, own)
}

// A PICK.
fn pick_next(question: Question, mark: u8, right: bool, own: bool) -> bool
    ensures { result ≡ next_by question (opens (open_branches pick mark) right) false (opens (open_branches pick mark) right) own }
{
    let open = opens(mark, right);
    next_by(question, open, false, open, own)
}

// The answer for row 0.
#[tactic(auto, unfolding(crate::specs::Asked::top_of))]
fn top(question: Question) -> u8
    ensures { result ≡ bit (top_of question) }
{
    match question {
        Question::Held => 0,
        _ => 1,
    }
}

#[tactic(auto, unfolding(steps::specs::Push::set_if))]
fn mark_child(table: &mut [u8; 256], child: u8, on: bool)
    ensures { table.new ≡ set_if (on && not (eqb child 0)) child table.old }
{
    if on & (child != 0) {
        table[child as usize] = 1;
    }
}

fn mark_both(table: &mut [u8; 256], x: u8, y: u8, a: bool, b: bool)
    ensures { table.new ≡ set_if (b && not (eqb y 0)) y (set_if (a && not (eqb x 0)) x table.old) }
{
    mark_child(table, x, a);
    mark_child(table, y, b);
}

// A row hands what was asked to its children.
fn hand(table: &mut [u8; 256], question: Question, node: TermRow, mark: u8, own: bool)
    ensures { table.new ≡ handed table.old (row_of node) (next_of question (row_of node) mark false own) (next_of question (row_of node) mark true own) }
{
    match node {
        TermRow::Nil => {}
        TermRow::Act { child, .. } | TermRow::Out { child, .. } | TermRow::Join { child, .. } => {
            mark_child(table, child, step_next(question, mark, own))
        }
        TermRow::Pick { left, right } => mark_both(
            table,
            left,
            right,
            pick_next(question, mark, false, own),
            pick_next(question, mark, true, own),
        ),
        TermRow::Flow { left, right } => mark_both(table, left, right, own, own),
    }
}

// The answer for each row.
pub fn ask(question: Question, ts: &[u8], n: usize, marks: &[u8; 256]) -> [u8; 256]
    requires { RowsLent ts.now n }
    ensures { Shows (asked_at question (row_at ts.now) (λ k. get_or marks.now k 0)) n result }
{
    let mut table = [0; 256];
    table[0] = top(question);
    for i in 0..n {
        let own = table[i] == 1;
        let node = rows::term::term_row(ts, i);
        hand(&mut table, question, node, marks[i], own);
    }
    table
}
