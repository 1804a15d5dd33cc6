// Does a state fit a table? Each check has a function of its own, and the last function their order.

#![tactic(auto)]

ghost use Rattle.std.specs.Prelude.{◌≡◌, ◌↔◌, ◌+◌, ◌*◌, ◌<◌, ◌≤◌, true, cond, not, eqb, ltb, leb, length, get_or};
ghost use Rattle.laws.specs.Tests.{or};
ghost use Rattle.laws.specs.Checks.{Holds};
ghost use Rattle.steps.specs.InFront.{waiting};
ghost use Rattle.sheet.specs.Table.{row_at};
ghost use Rattle.sheet.specs.Accepted.{RowsLent};
ghost use Rattle.moves.specs.Steps.{mode_of, marks_of};
ghost use Rattle.moves.specs.Fits.{suits, clear_row, mode_check, marks_fit, links_fit, waits_fit, clear_fit, counts_fit};
ghost use Rattle.front.specs.Asked.{ShowsLive};
ghost use Rattle.fitting.specs.Checks.{rest_fit, alone, fitted};

use rows::term::TermRow;
use sheet::Refusal;
use state::State;

// 9: the mode is 0 or 1.
pub fn mode_ok(mode: u8) -> bool
    ensures { result ≡ (mode_check mode).rule mode }
{
    mode <= 1
}

// The place of 9 is the mode itself.
fn fit_mode(mode: u8) -> Result<(), Refusal>
    ensures { result ≡ alone (mode_check mode) }
{
    if !mode_ok(mode) {
        return Err(Refusal {
            number: 9,
            place: mode as usize,
        });
    }
    Ok(())
}

// (a) the mark suits its row and the mode.
#[tactic(auto, unfolding(laws::specs::Tests::or, moves::specs::Fits::suits, moves::specs::Fits::suits_prefix, moves::specs::Fits::suits_branch))]
fn suits(mode: u8, ts: &[u8], row: usize, mark: u8) -> bool
    requires { row * 4 + 4 ≤ length ts.now }
    ensures { result ≡ suits (mode_of mode) (row_at ts.now row) mark }
{
    match rows::term::term_row(ts, row) {
        TermRow::Act { .. } | TermRow::Out { .. } => mark <= 1,
        TermRow::Join { .. } => (mark <= 1) | ((mark == 4) & front::cleans(mode)),
        TermRow::Pick { .. } => (mark == 0) | ((mark == 2) | (mark == 3)),
        TermRow::Nil | TermRow::Flow { .. } => mark == 0,
    }
}

// (b) the link's value.
fn link_ok(m: usize, link: usize, value: u8) -> bool
    ensures { result ≡ cond (ltb link m) (leb value 2) (eqb value 0) }
{
    if link < m {
        return value <= 2;
    }
    value == 0
}

// (c) the row waits.
#[tactic(auto, unfolding(steps::specs::InFront::waiting, steps::specs::InFront::undecided, steps::specs::Marks::open_branches))]
fn waiting(ts: &[u8], row: usize, mark: u8) -> bool
    requires { row * 4 + 4 ≤ length ts.now }
    ensures { result ≡ waiting (row_at ts.now row) mark }
{
    match rows::term::term_row(ts, row) {
        TermRow::Act { .. } | TermRow::Out { .. } | TermRow::Join { .. } => front::waits(mark),
        TermRow::Pick { .. } => front::undecided(mark),
        TermRow::Nil | TermRow::Flow { .. } => true,
    }
}

#[tactic(auto, unfolding(laws::specs::Tests::or))]
fn wait_ok(held: u8, ts: &[u8], row: usize, mark: u8) -> bool
    requires { row * 4 + 4 ≤ length ts.now }
    ensures { result ≡ or (not (eqb held 1)) (waiting (row_at ts.now row) mark) }
{
    if held == 1 {
        return waiting(ts, row, mark);
    }
    true
}

// The byte of a link; 0 from link 64 on.
fn link_byte(links: &[u8; 64], link: u8) -> u8
    ensures { result ≡ get_or links.now link 0 }
{
    links.get(link as usize).copied().unwrap_or(0)
}

// (d) a waiting OUT has its link unset.
#[tactic(auto, unfolding(laws::specs::Tests::or, moves::specs::Fits::clear_row, moves::specs::Fits::clear_prefix))]
fn clear_row(ts: &[u8], row: usize, mark: u8, links: &[u8; 64]) -> bool
    requires { row * 4 + 4 ≤ length ts.now }
    ensures { result ≡ clear_row (row_at ts.now row) mark links.now }
{
    match rows::term::term_row(ts, row) {
        TermRow::Out { link, .. } => !front::waits(mark) | (link_byte(links, link) == 0),
        TermRow::Nil
        | TermRow::Act { .. }
        | TermRow::Join { .. }
        | TermRow::Pick { .. }
        | TermRow::Flow { .. } => true,
    }
}

#[tactic(auto, unfolding(laws::specs::Tests::or))]
fn clear_ok(live: u8, ts: &[u8], row: usize, mark: u8, links: &[u8; 64]) -> bool
    requires { row * 4 + 4 ≤ length ts.now }
    ensures { result ≡ or (not (eqb live 1)) (clear_row (row_at ts.now row) mark links.now) }
{
    if live == 1 {
        return clear_row(ts, row, mark, links);
    }
    true
}

// No row from n on has a mark. The loop has one end, so that it can take many marks at once. The marks before row n are not asked here, so it is lent them all.
fn unmarked_from(marks: &[u8; 256], n: usize) -> bool
    requires { n ≤ 256 }
    ensures { (result ≡ true) ↔ Holds (rest_fit n (λ k. get_or marks.now k 0)) }
{
    let mut none = true;
    for row in n..256 {
        none = none & (marks[row] == 0);
    }
    none
}

// 10 (a), from row n on.
fn fit_rest(marks: &[u8; 256], n: usize) -> Result<(), Refusal>
    requires { n ≤ 256 }
    ensures { result ≡ alone (rest_fit n (λ k. get_or marks.now k 0)) }
{
    if unmarked_from(marks, n) {
        return Ok(());
    }
    for row in n..256 {
        if marks[row] != 0 {
            return Err(Refusal {
                number: 10,
                place: row,
            });
        }
    }
    Ok(())
}

// 10 (a): the lowest row whose mark does not suit.
fn fit_marks(mode: u8, ts: &[u8], n: usize, marks: &[u8; 256]) -> Result<(), Refusal>
    requires { (n * 4 ≤ length ts.now) × (n ≤ 256) }
    ensures { result ≡ alone (marks_fit ts.now n (mode_of mode) (λ k. get_or marks.now k 0)) }
{
    for row in 0..n {
        if !suits(mode, ts, row, marks[row]) {
            return Err(Refusal {
                number: 10,
                place: row,
            });
        }
    }
    fit_rest(marks, n)
}

// 10 (b): the lowest link whose value does not suit.
fn fit_links(m: usize, links: &[u8; 64]) -> Result<(), Refusal>
    ensures { result ≡ alone (links_fit m links.now) }
{
    for (link, value) in links.iter().enumerate() {
        if !link_ok(m, link, *value) {
            return Err(Refusal {
                number: 10,
                place: link,
            });
        }
    }
    Ok(())
}

// 10 (c): the lowest row that should wait and does not.
fn fit_waits(ts: &[u8], n: usize, marks: &[u8; 256]) -> Result<(), Refusal>
    requires { RowsLent ts.now n }
    ensures { result ≡ alone (waits_fit ts.now n (λ k. get_or marks.now k 0)) }
{
    let held = front::ask(front::Question::Held, ts, n, marks);
    for row in 0..n {
        if !wait_ok(held[row], ts, row, marks[row]) {
            return Err(Refusal {
                number: 10,
                place: row,
            });
        }
    }
    Ok(())
}

// 10 (d): the lowest OUT row of the remainder whose link is set, from the rows that are live.
fn fit_clear(ts: &[u8], n: usize, s: &State, live: &[u8; 256]) -> Result<(), Refusal>
    requires { ((n ≤ 256) × (n * 4 ≤ length ts.now)) × ShowsLive ts.now n (marks_of s.now) live.now }
    ensures { result ≡ alone (clear_fit ts.now n (marks_of s.now) s.now.links) }
{
    for row in 0..n {
        if !clear_ok(live[row], ts, row, s.marks[row], &s.links) {
            return Err(Refusal {
                number: 10,
                place: row,
            });
        }
    }
    Ok(())
}

// 10 (e): the counts, from the rows that are live.
fn fit_counts(m: usize, n: usize, ts: &[u8], s: &State, live: &[u8; 256]) -> Result<(), Refusal>
    requires { (m ≤ 64) × (RowsLent ts.now n × ShowsLive ts.now n (marks_of s.now) live.now) }
    ensures { result ≡ alone (counts_fit m ts.now n s.now) }
{
    let acts = counts::acts(ts, n, &s.marks, live);
    let unset = counts::unset(m, &s.links);
    if !((s.acts == acts) & (s.unset == unset)) {
        return Err(Refusal {
            number: 10,
            place: 0,
        });
    }
    Ok(())
}

// The refusal of a state: checks 9 and 10, in order. The rows that are live are made once for 10 (d) and (e).
pub fn fit(m: usize, n: usize, ts: &[u8], s: State) -> Result<(), Refusal>
    requires { (m ≤ 64) × RowsLent ts.now n }
    ensures { result ≡ fitted m n ts.now s }
{
    fit_mode(s.mode)?;
    fit_marks(s.mode, ts, n, &s.marks)?;
    fit_links(m, &s.links)?;
    fit_waits(ts, n, &s.marks)?;
    let live = front::ask(front::Question::Live, ts, n, &s.marks);
    fit_clear(ts, n, &s, &live)?;
    fit_counts(m, n, ts, &s, &live)
}
