// How many ACT rows are in the remainder, and how many links are unset. Both are counted in full: a step may take many rows from the remainder at once.

#![tactic(auto)]

ghost use Rattle.std.specs.Prelude.{◌≡◌, ◌+◌, ◌*◌, ◌≤◌, ◌&&◌, not, eqb, length, get_or};
ghost use Rattle.conditions.specs.Conditions.{is_set};
ghost use Rattle.conditions.specs.Numbers.{undigit};
ghost use Rattle.steps.specs.InFront.{waiting_act};
ghost use Rattle.sheet.specs.Table.{row_at};
ghost use Rattle.sheet.specs.Accepted.{RowsLent};
ghost use Rattle.evaluate.specs.Values.{links_in};
ghost use Rattle.moves.specs.Steps.{remainder_in, acts_of, unset_of, counted_in};
ghost use Rattle.front.specs.Asked.{ShowsLive};

use state::State;

// A waiting ACT that is live.
fn act(ts: &[u8], row: usize, mark: u8, live: u8) -> bool
    requires { row * 4 + 4 ≤ length ts.now }
    ensures { result ≡ (waiting_act (row_at ts.now row) mark && eqb live 1) }
{
    (rows::term::term_row(ts, row).is_act() & front::waits(mark)) & (live == 1)
}

// The ACT rows in the remainder, from the rows that are live. There are at most 255: the last row is a NIL.
pub fn acts(ts: &[u8], n: usize, marks: &[u8; 256], live: &[u8; 256]) -> u8
    requires { RowsLent ts.now n × ShowsLive ts.now n (λ k. get_or marks.now k 0) live.now }
    ensures { result ≡ acts_of (remainder_in ts.now n (λ k. get_or marks.now k 0) 0) }
{
    let mut found: u8 = 0;
    for row in 0..n {
        found += act(ts, row, marks[row], live[row]) as u8;
    }
    found
}

// The byte of an unset link.
fn unset_byte(byte: u8) -> bool
    ensures { result ≡ not (is_set (undigit byte)) }
{
    byte == 0
}

// The unset links among the first m.
pub fn unset(m: usize, links: &[u8; 64]) -> u8
    requires { m ≤ 64 }
    ensures { result ≡ unset_of m (links_in links.now) }
{
    let mut found: u8 = 0;
    for link in 0..m {
        found += unset_byte(links[link]) as u8;
    }
    found
}

// The state with its counts.
pub fn counted(m: usize, ts: &[u8], n: usize, z: State) -> State
    requires { (m ≤ 64) × RowsLent ts.now n }
    ensures { result ≡ counted_in m ts.now n z }
{
    let live = front::ask(front::Question::Live, ts, n, &z.marks);
    let left = acts(ts, n, &z.marks, &live);
    let unknown = unset(m, &z.links);
    z.with_counts(left, unknown)
}
