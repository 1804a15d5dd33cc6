// What a step changes: the row's mark and link, the waiting PICKs above it, in cleaning mode the links of what is cleaned away, and the counts.

#![tactic(auto)]

ghost use Rattle.std.specs.Prelude.{◌≡◌, ◌+◌, ◌*◌, ◌<◌, ◌≤◌, length, get_or};
ghost use Rattle.steps.specs.Rows.{first_of};
ghost use Rattle.steps.specs.InFront.{parent_of};
ghost use Rattle.sheet.specs.Table.{row_at};
ghost use Rattle.sheet.specs.Accepted.{RowsLent};
ghost use Rattle.rows.specs.Term.{row_of};
ghost use Rattle.reach.specs.Masks.{has_bit};
ghost use Rattle.moves.specs.Steps.{is_waiting_pick, falsify_from, falsified, decided_of, climbed, own_of, taken_of, dropped_of, counted_in};
ghost use Rattle.effects.specs.Gather.{Gathers, own_sets, kept_first, kept_second, sets_at, OwnBelow};

use rows::term::TermRow;
use state::State;

// The link of a waiting OUT.
fn own_bit(node: TermRow, mark: u8) -> u64
    ensures { Gathers result (own_sets (row_of node) mark) }
{
    match node {
        TermRow::Out { link, .. } => if front::waits(mark) {
            reach::bit(link)
        } else {
            0
        },
        _ => 0,
    }
}

// The children in a row's remainder. Where there is none it is n, past every row, at which `gather` ends.
#[tactic(auto, unfolding(crate::specs::Gather::kept_first))]
fn kept_first(node: TermRow, n: usize, mark: u8) -> usize
    ensures { result ≡ kept_first n (row_of node) mark }
{
    if front::keeps(node, mark, false) {
        return node.first() as usize;
    }
    n
}

#[tactic(auto, unfolding(crate::specs::Gather::kept_second))]
fn kept_second(node: TermRow, n: usize, mark: u8) -> usize
    ensures { result ≡ kept_second n (row_of node) mark }
{
    let child = node.second();
    if front::keeps(node, mark, true) & (child != 0) {
        return child as usize;
    }
    n
}

// The links that the remainder of a row sets.
fn gather(ts: &[u8], n: usize, marks: &[u8; 256], row: usize) -> u64
    requires { RowsLent ts.now n }
    ensures { Gathers result (sets_at ts.now n (λ k. get_or marks.now k 0) row) }
{
    if n <= row {
        return 0;
    }
    let node = rows::term::term_row(ts, row);
    let mark = marks[row];
    let a = gather(ts, n, marks, kept_first(node, n, mark));
    let b = gather(ts, n, marks, kept_second(node, n, mark));
    own_bit(node, mark) | (a | b)
}

// The links of the word become false.
fn falsify(word: u64, z: State) -> State
    ensures { result ≡ falsify_from (has_bit word) 0 64 z }
{
    let mut state = z;
    for l in 0..64 {
        if reach::reached(word, l) {
            state = state.set_link(l, 1);
        }
    }
    state
}

// All links set by the remainder of the row become false.
fn falsify_below(ts: &[u8], n: usize, marks: &[u8; 256], row: usize, z: State) -> State
    requires { RowsLent ts.now n × (row < n) }
    ensures { result ≡ falsified ts.now n (λ k. get_or marks.now k 0) row z }
{
    falsify(gather(ts, n, marks, row), z)
}

#[tactic(auto, unfolding(moves::specs::Steps::is_waiting_pick))]
fn waiting_pick(node: TermRow, mark: u8) -> bool
    ensures { result ≡ is_waiting_pick (row_of node) mark }
{
    matches!(node, TermRow::Pick { .. }) & front::undecided(mark)
}

// The row p above j, if it is a waiting PICK, is decided towards j; in cleaning mode the links of the other branch become false.
fn decide_above(ts: &[u8], n: usize, old: State, j: usize, p: usize, z: State) -> State
    requires { RowsLent ts.now n × ((j < n) × ((p ≡ parent_of (row_at ts.now) j) × (p < j))) }
    ensures { result ≡ decided_of ts.now n old j z }
{
    let node = rows::term::term_row(ts, p);
    if !waiting_pick(node, old.marks[p]) {
        return z;
    }
    let second = node.second() as usize;
    let right = second == j;
    let next = z.decide(p as u8, right);
    if !front::cleans(old.mode) {
        return next;
    }
    if right {
        return falsify_below(ts, n, &old.marks, node.first() as usize, next);
    }
    falsify_below(ts, n, &old.marks, second, next)
}

// From the row up to row 0, each row looked at once: every waiting PICK above it is decided towards it.
fn climb(ts: &[u8], n: usize, old: State, row: usize, z: State) -> State
    requires { RowsLent ts.now n × (row < n) }
    ensures { result ≡ climbed ts.now n old row z }
{
    let mut at = row;
    let mut state = z;
    for p in (0..row).rev() {
        if rows::term::term_row(ts, p).names(at) {
            state = decide_above(ts, n, old, at, p, state);
            at = p;
        }
    }
    state
}

// An OUT sets its link.
#[tactic(auto, unfolding(moves::specs::Steps::own_of, moves::specs::Steps::own_link, conditions::specs::Numbers::digit))]
fn set_own(node: TermRow, z: State) -> State
    requires { OwnBelow (row_of node) }
    ensures { result ≡ own_of (row_of node) z }
{
    match node {
        TermRow::Out { link, value, .. } => {
            let byte = if value { 2 } else { 1 };
            z.set_link(link as usize, byte)
        }
        _ => z,
    }
}

// The row is passed, and the counts are those of what is left.
pub fn taken(m: usize, ts: &[u8], n: usize, old: State, row: usize) -> State
    requires { ((m ≤ 64) × RowsLent ts.now n) × ((row < n) × OwnBelow (row_at ts.now row)) }
    ensures { result ≡ counted_in m ts.now n (taken_of ts.now n old row) }
{
    let passed = old.pass(row as u8);
    let told = set_own(rows::term::term_row(ts, row), passed);
    let decided = climb(ts, n, old, row, told);
    counts::counted(m, ts, n, decided)
}

// The row, a JOIN, is dropped, and the counts are those of what is left.
pub fn dropped(m: usize, ts: &[u8], n: usize, old: State, row: usize) -> State
    requires { ((m ≤ 64) × RowsLent ts.now n) × ((row < n) × (first_of (row_at ts.now row) < n)) }
    ensures { result ≡ counted_in m ts.now n (dropped_of ts.now n old row) }
{
    let next = old.drop_join(row as u8);
    let child = rows::term::term_row(ts, row).first() as usize;
    let cleaned = falsify_below(ts, n, &old.marks, child, next);
    counts::counted(m, ts, n, cleaned)
}
