// The terms of the compacted table. What is left of a row begins at some row, its top. A row is kept that is live and its own top; its new number, its rank, is how many are kept before it, and a child is named by the rank of its top.

#![tactic(auto)]

ghost use Rattle.std.specs.Prelude.{◌≡◌, ◌+◌, ◌*◌, ◌<◌, ◌≤◌, cond, get_or, length};
ghost use Rattle.laws.specs.Listed.{written};
ghost use Rattle.laws.specs.Sums.{count};
ghost use Rattle.calculus.specs.Process.{pick};
ghost use Rattle.steps.specs.Marks.{stand, open_branches};
ghost use Rattle.steps.specs.InFront.{waits_by, passed_by};
ghost use Rattle.sheet.specs.Table.{lent_table, row_at};
ghost use Rattle.sheet.specs.Accepted.{WellFormed, RowsLent};
ghost use Rattle.rows.specs.Term.{row_of};
ghost use Rattle.flags.specs.Flags.{flagged, Shows};
ghost use Rattle.laying.specs.Told.{Tells};
ghost use Rattle.laying.specs.LaidIn.{LaidIn};
ghost use Rattle.layout.specs.Rows.{root};
ghost use Rattle.layout.specs.Bytes.{four};
ghost use Rattle.moves.specs.Steps.{remainder_in};
ghost use Rattle.compacted.specs.Compacted.{compacted_by, compacted_sheet};
ghost use Rattle.collect.specs.Tops.{top_branch, top_by};
ghost use Rattle.collect.specs.Kept.{kept_by, new_bytes, new_terms, Keeps};

use rows::term::TermRow;
use sheet::{Head, Table};
use state::State;

// The top of an ACT, OUT or JOIN: of a passed one its child's.
#[tactic(auto, using(front::proofs::ByKind::passed_mark))]
fn top_step(row: u8, child: u8, mark: u8, tops: &[u8; 256]) -> u8
    ensures { result ≡ cond (passed_by (stand mark)) (get_or tops.now child 0) row }
{
    if mark == 1 {
        return tops[child as usize];
    }
    row
}

// The top of a PICK: of a decided one its taken branch's. Marks are bytes of a `State`, so they are matched as numbers.
#[tactic(auto, unfolding(steps::specs::Marks::open_branches))]
fn top_pick(row: u8, left: u8, right: u8, mark: u8, tops: &[u8; 256]) -> u8
    ensures { result ≡ top_branch (open_branches pick mark) row (get_or tops.now left 0) (get_or tops.now right 0) }
{
    match mark {
        2 => tops[left as usize],
        3 => tops[right as usize],
        _ => row,
    }
}

// The top of a row, from those of its children.
#[tactic(auto, unfolding(crate::specs::Tops::top_by, steps::specs::Marks::open_branches))]
fn top_of(node: TermRow, row: u8, mark: u8, tops: &[u8; 256]) -> u8
    ensures { result ≡ top_by row (row_of node) mark (λ j. get_or tops.now j 0) }
{
    match node {
        TermRow::Act { child, .. } | TermRow::Out { child, .. } | TermRow::Join { child, .. } => {
            top_step(row, child, mark, tops)
        }
        TermRow::Pick { left, right } => top_pick(row, left, right, mark, tops),
        TermRow::Nil | TermRow::Flow { .. } => row,
    }
}

// The top of each row. Children have greater numbers, so the last row comes first.
fn tops(ts: &[u8], n: usize, marks: &[u8; 256]) -> [u8; 256]
    requires { RowsLent ts.now n }
    ensures { Tells (λ j. root (remainder_in ts.now n (λ k. get_or marks.now k 0) j)) 0 n result }
{
    let mut table = [0; 256];
    for row in (0..n).rev() {
        let node = rows::term::term_row(ts, row);
        let top = top_of(node, row as u8, marks[row], &table);
        table[row] = top;
    }
    table
}

// A row is kept that is live, and its own top.
fn is_kept(live: &[u8; 256], tops: &[u8; 256], row: usize) -> bool
    requires { row < 256 }
    ensures { result ≡ kept_by live.now tops.now row }
{
    let own = row as u8;
    (live[row] == 1) & (tops[row] == own)
}

// The rows that are kept.
fn kept(live: &[u8; 256], tops: &[u8; 256], n: usize) -> [u8; 256]
    requires { n ≤ 256 }
    ensures { Shows (kept_by live.now tops.now) n result }
{
    let mut flags = [0; 256];
    for row in 0..n {
        flags[row] = is_kept(live, tops, row) as u8;
    }
    flags
}

// The rank of what is left of a child.
fn rank_of(child: u8, tops: &[u8; 256], ranks: &[u8; 256]) -> u8
    ensures { result ≡ get_or ranks.now (get_or tops.now child 0) 0 }
{
    let top = tops[child as usize];
    ranks[top as usize]
}

// The bytes of an ACT, OUT or JOIN that is kept: of a dropped JOIN those of NIL.
fn step_row(mark: u8, bytes: [u8; 4]) -> [u8; 4]
    ensures { result ≡ cond (waits_by (stand mark)) bytes (four 0 0 0 0) }
{
    if front::waits(mark) {
        return bytes;
    }
    [0, 0, 0, 0]
}

// The bytes of a PICK or FLOW that is kept.
fn branch_row(kind: u8, left: u8, right: u8, tops: &[u8; 256], ranks: &[u8; 256]) -> [u8; 4]
    ensures { result ≡ four kind (get_or ranks.now (get_or tops.now left 0) 0) (get_or ranks.now (get_or tops.now right 0) 0) 0 }
{
    let a = rank_of(left, tops, ranks);
    let b = rank_of(right, tops, ranks);
    [kind, a, b, 0]
}

// The bytes of a row that is kept.
fn new_row(node: TermRow, mark: u8, tops: &[u8; 256], ranks: &[u8; 256]) -> [u8; 4]
    ensures { result ≡ new_bytes (row_of node) mark tops.now ranks.now }
{
    match node {
        TermRow::Nil => [0, 0, 0, 0],
        TermRow::Act { activity, child } => {
            step_row(mark, [1, activity, rank_of(child, tops, ranks), 0])
        }
        TermRow::Out { link, value, child } => {
            step_row(mark, [2, link, value as u8, rank_of(child, tops, ranks)])
        }
        TermRow::Join { condition, child } => {
            step_row(mark, [3, condition, rank_of(child, tops, ranks), 0])
        }
        TermRow::Pick { left, right } => branch_row(4, left, right, tops, ranks),
        TermRow::Flow { left, right } => branch_row(5, left, right, tops, ranks),
    }
}

// The terms of the compacted table into the array, and how many rows they are.
fn kept_rows(h: Head, ts: &[u8], s: State, out: &mut [u8]) -> usize
    requires { RowsLent ts.now h.n × (h.n * 4 ≤ length out.old) }
    ensures { Keeps h ts.now s result out.new }
{
    let live = front::ask(front::Question::Live, ts, h.n, &s.marks);
    let tops = tops(ts, h.n, &s.marks);
    let kept = kept(&live, &tops, h.n);
    let ranks = laying::ranks(&kept, h.n);
    let row = |i: usize|
        requires { (i < 256) × (i * 4 + 4 ≤ length ts.now) }
        ensures { result ≡ new_bytes (row_at ts.entry.now i) (get_or s.marks i 0) tops ranks }
    { new_row(rows::term::term_row(ts, i), s.marks[i], &tops, &ranks) };
    laying::lay(&kept, h.n, row, out)
}

// The evaluation of the compacted sheet: 2 for strict, 3 for lazy; that of a compacted one stays. It is a number here, since a `Head` has it as the byte of its sheet.
#[tactic(auto, unfolding(compacted::specs::Compacted::compacted_by))]
fn compacted_by(evaluation: u8) -> u8
    ensures { result ≡ compacted_by evaluation }
{
    match evaluation {
        0 => 2,
        1 => 3,
        _ => evaluation,
    }
}

// The bytes of the compacted sheet to a lent buffer, and how many; a buffer that is too short is left as it is.
pub fn write(t: &Table, s: State, out: &mut [u8]) -> usize
    requires { WellFormed (lent_table t.now) }
    ensures { (result ≡ length (compacted_sheet (lent_table t.now) s)) × (out.new ≡ written (compacted_sheet (lent_table t.now) s) out.old) }
{
    let mut rows = [0; 1024];
    let count = kept_rows(t.head, t.terms, s, &mut rows);
    let head = Head {
        evaluation: compacted_by(t.head.evaluation),
        m: t.head.m,
        n: count,
        k: t.head.k,
    };
    codec::lay(
        &Table {
            head,
            terms: &rows,
            conditions: t.conditions,
        },
        out,
    )
}
