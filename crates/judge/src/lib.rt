// The judge of a table, for any numbers and any rows: each condition row and each term row is looked at once; where 13 is given, term rows once more, to find its row.
// The last nine functions, read from the last, are the order of the checks.

#![tactic(auto)]

ghost use Rattle.std.specs.Prelude.{◌≡◌, ◌+◌, ◌*◌, ◌<◌, ◌≤◌, Ok, length, get_or};
ghost use Rattle.laws.specs.Up.{Filled};
ghost use Rattle.laws.specs.Checks.{place_of, checked};
ghost use Rattle.sheet.specs.Table.{lent_table, row_by, is_compacted};
ghost use Rattle.sheet.specs.Rules.{sized, condition_rule, condition_ok, child_ok, term_rule, conditions, terms, sourced, narrow, from3, from4, from5, from7, from13, from8, no, judged};
ghost use Rattle.reach.specs.Masks.{mask_at};
ghost use Rattle.judge.specs.Judge.{Lent, AfterConditions, Sound, bumped, Few, OneMore, Children, Misnamed, source_noted, wide_noted, join_noted, links_noted, wants_within, AfterRows};

use sheet::{Refusal, Table};

// 1: the numbers of rows, and the rows lent.
fn sized_ok(n: usize, k: usize, lt: usize, lc: usize) -> bool
    ensures { result ≡ sized n k lt lc }
{
    if n < 1 {
        return false;
    }
    if 256 < n {
        return false;
    }
    if 256 < k {
        return false;
    }
    if lt < n * 4 {
        return false;
    }
    k * 4 <= lc
}

// 4: a condition row, by its kind.
fn condition_row(m: usize, row: usize, kind: u8, a: usize, b: usize, c: usize) -> bool
    ensures { result ≡ condition_rule m row kind a b c }
{
    if 2 < kind {
        return (kind < 7) & ((a < row) & ((b < row) & (c == 0)));
    }
    if kind == 2 {
        return (a < m) & ((b == 0) & (c == 0));
    }
    (a == 0) & ((b == 0) & (c == 0))
}

fn condition_ok(cs: &[u8], m: usize, row: usize) -> bool
    requires { row * 4 + 4 ≤ length cs.now }
    ensures { result ≡ condition_ok cs.now m row }
{
    let at = row * 4;
    condition_row(
        m,
        row,
        cs[at],
        cs[at + 1] as usize,
        cs[at + 2] as usize,
        cs[at + 3] as usize,
    )
}

// The lowest condition row that breaks its rule; on the way the links that each row reaches. k where there is none, as `place_of` has it.
fn bad_condition(m: usize, k: usize, cs: &[u8], masks: &mut [u64; 256]) -> usize
    requires { (k * 4 ≤ length cs.now) × ((k ≤ 256) × ((length masks.old ≡ 256) × Filled 0 (mask_at cs.now) 0 masks.old)) }
    ensures { (result ≡ place_of (conditions m k cs.now)) × (k ≤ result → Filled 0 (mask_at cs.now) k masks.new) }
{
    for i in 0..k {
        if !condition_ok(cs, m, i) {
            return i;
        }
        masks[i] = reach::step(cs, i, masks);
    }
    k
}

fn child(n: usize, row: usize, x: usize) -> bool
    ensures { result ≡ child_ok n row x }
{
    (row < x) & (x < n)
}

// 5: a term row, by its kind: a number here and below, since `term_rule`, `links_noted` and `wants_within` ask the bytes before they make a row.
fn term_row(
    m: usize,
    n: usize,
    k: usize,
    row: usize,
    kind: u8,
    a: usize,
    b: usize,
    c: usize,
) -> bool
    ensures { result ≡ term_rule m n k row kind a b c }
{
    match kind {
        0 => (a == 0) & ((b == 0) & (c == 0)),
        1 => child(n, row, b) & (c == 0),
        2 => (a < m) & ((b < 2) & child(n, row, c)),
        3 => (a < k) & (child(n, row, b) & (c == 0)),
        4 => child(n, row, a) & (child(n, row, b) & (c == 0)),
        5 => child(n, row, a) & (child(n, row, b) & (c == 0)),
        _ => false,
    }
}

fn bump(counts: &mut [u16; 256], key: u8)
    requires { get_or counts.old key 0 < 65535 }
    ensures { counts.new ≡ bumped counts.old key }
{
    let x = counts[key as usize];
    counts[key as usize] = x + 1;
}

// One more for each child of a row.
fn note_children(named: &mut [u16; 256], kind: u8, a: u8, b: u8, c: u8)
    requires { (length named.old ≡ 256) × Few named.old 511 }
    ensures { OneMore named.old (row_by kind a b c) named.new }
{
    bump(named, rows::first_by(kind, a, b, c));
    if 3 < kind {
        bump(named, rows::second_by(kind, a, b, c));
    }
}

// What checks 7, 13 and 8 ask of the rows so far: the links that an OUT row sets, those that two set, those that a JOIN's condition reaches, which it wants unless the sheet was compacted, and the lowest JOIN row whose condition reaches more than 8 links, n where there is none.
#[derive(Clone, Copy)]
struct Notes {
    linked: u64,
    twice: u64,
    wanted: u64,
    join: usize,
}

fn note_source(notes: Notes, link: u8) -> Notes
    ensures { result ≡ source_noted notes link }
{
    let bit = reach::bit(link);
    Notes {
        linked: notes.linked | bit,
        twice: notes.twice | (notes.linked & bit),
        ..notes
    }
}

// The lowest JOIN row so far whose condition reaches more than 8 links, with this one.
fn note_wide(join: usize, n: usize, row: usize, mask: u64) -> usize
    ensures { result ≡ wide_noted join n row mask }
{
    if (reach::width(mask) <= 8) | (join < n) {
        return join;
    }
    row
}

fn note_join(notes: Notes, n: usize, row: usize, mask: u64) -> Notes
    ensures { result ≡ join_noted notes n row mask }
{
    Notes {
        wanted: notes.wanted | mask,
        join: note_wide(notes.join, n, row, mask),
        ..notes
    }
}

fn note_links(notes: Notes, n: usize, row: usize, kind: u8, a: u8, masks: &[u64; 256]) -> Notes
    ensures { result ≡ links_noted notes n row kind a masks.now }
{
    match kind {
        2 => note_source(notes, a),
        3 => note_join(notes, n, row, reach::mask_of(masks, a)),
        _ => notes,
    }
}

// The lowest term row that breaks its rule, where none before a row does. n where there is none, as `place_of` has it.
fn bad_term(m: usize, n: usize, k: usize, ts: &[u8], from: usize) -> usize
    requires { (n * 4 ≤ length ts.now) × ((from ≤ n) × Sound m n k ts.now from) }
    ensures { result ≡ place_of (terms m n k ts.now) }
{
    for i in from..n {
        let at = i * 4;
        let kind = ts[at];
        let a = ts[at + 1] as usize;
        let b = ts[at + 2] as usize;
        let c = ts[at + 3] as usize;
        if !term_row(m, n, k, i, kind, a, b, c) {
            return i;
        }
    }
    n
}

// Whether every link that a row wants is in a mask, of a sheet that was never compacted: a JOIN wants those that its condition reaches.
fn wants_within(kind: u8, a: u8, masks: &[u64; 256], links: u64) -> bool
    ensures { result ≡ wants_within kind a masks.now links }
{
    match kind {
        3 => reach::within(reach::mask_of(masks, a), links),
        _ => true,
    }
}

// The evaluations of a compacted sheet, which may read a link whose source is spent.
fn is_compacted(evaluation: u8) -> bool
    ensures { result ≡ is_compacted evaluation }
{
    (evaluation == 2) | (evaluation == 3)
}

// The lowest JOIN row that wants a link without a source. The rows are looked at again only if there is such a link. n where there is none, as `place_of` has it.
fn unsourced_join(t: &Table, masks: &[u64; 256], notes: Notes) -> usize
    requires { AfterRows (lent_table t.now) masks.now notes }
    ensures { result ≡ place_of (sourced (lent_table t.now)) }
{
    let n = t.head.n;
    let linked = notes.linked;
    if is_compacted(t.head.evaluation) {
        return n;
    }
    if reach::within(notes.wanted, linked) {
        return n;
    }
    for row in 0..n {
        let at = row * 4;
        let kind = t.terms[at];
        let a = t.terms[at + 1];
        if !wants_within(kind, a, masks, linked) {
            return row;
        }
    }
    n
}

// Check 8, the last.
fn judge_joins(t: &Table, join: usize) -> Result<(), Refusal>
    requires { join ≡ place_of (narrow t.now.head.m t.now.head.n t.now.terms.now t.now.conditions.now) }
    ensures { result ≡ checked no (Ok tt) (from8 (lent_table t.now)) }
{
    let end = t.head.n;
    if join < end {
        return Err(Refusal {
            number: 8,
            place: join,
        });
    }
    Ok(())
}

// Check 13 and on.
fn judge_wanted(t: &Table, masks: &[u64; 256], notes: Notes) -> Result<(), Refusal>
    requires { AfterRows (lent_table t.now) masks.now notes }
    ensures { result ≡ checked no (Ok tt) (from13 (lent_table t.now)) }
{
    let end = t.head.n;
    let place = unsourced_join(t, masks, notes);
    if place < end {
        return Err(Refusal { number: 13, place });
    }
    judge_joins(t, notes.join)
}

// Check 7 and on.
fn judge_sources(t: &Table, masks: &[u64; 256], notes: Notes) -> Result<(), Refusal>
    requires { AfterRows (lent_table t.now) masks.now notes }
    ensures { result ≡ checked no (Ok tt) (from7 (lent_table t.now)) }
{
    let end = t.head.m;
    let link = u64::trailing_zeros(notes.twice) as usize;
    if link < end {
        return Err(Refusal {
            number: 7,
            place: link,
        });
    }
    judge_wanted(t, masks, notes)
}

// The first row that is not named exactly once: 5 if a row from it on breaks its rule, else 6.
fn judge_tree(t: &Table, row: usize) -> Result<(), Refusal>
    requires { Misnamed (lent_table t.now) row }
    ensures { result ≡ checked no (Ok tt) (from5 (lent_table t.now)) }
{
    let end = t.head.n;
    let place = bad_term(t.head.m, t.head.n, t.head.k, t.terms, row);
    if place < end {
        return Err(Refusal { number: 5, place });
    }
    Err(Refusal {
        number: 6,
        place: row,
    })
}

// Check 5 and on, in one pass: the rows that name a row as a child lie before it, so its count is complete when the pass comes to it.
fn judge_rows(t: &Table, masks: &[u64; 256], named: &mut [u16; 256]) -> Result<(), Refusal>
    requires { AfterConditions (lent_table t.now) masks.now × Children t.now.terms.now 0 named.old }
    ensures { result ≡ checked no (Ok tt) (from5 (lent_table t.now)) }
{
    let n = t.head.n;
    let mut notes = Notes {
        linked: 0,
        twice: 0,
        wanted: 0,
        join: n,
    };
    for i in 0..n {
        let times = named[i];
        if times != 1 {
            return judge_tree(t, i);
        }
        let at = i * 4;
        let kind = t.terms[at];
        let a = t.terms[at + 1];
        let b = t.terms[at + 2];
        let c = t.terms[at + 3];
        if !term_row(
            t.head.m, n, t.head.k, i, kind, a as usize, b as usize, c as usize,
        ) {
            return Err(Refusal {
                number: 5,
                place: i,
            });
        }
        notes = note_links(notes, n, i, kind, a, masks);
        note_children(named, kind, a, b, c);
    }
    judge_sources(t, masks, notes)
}

// Check 5 and on. Row 0 counts as named, being the root.
fn judge_terms(t: &Table, masks: &[u64; 256]) -> Result<(), Refusal>
    requires { AfterConditions (lent_table t.now) masks.now }
    ensures { result ≡ checked no (Ok tt) (from5 (lent_table t.now)) }
{
    let mut named = [0; 256];
    named[0] = 1;
    judge_rows(t, masks, &mut named)
}

// Check 4 and on.
fn judge_conditions(t: &Table) -> Result<(), Refusal>
    requires { Lent (lent_table t.now) × (t.now.head.m ≤ 64) }
    ensures { result ≡ checked no (Ok tt) (from4 (lent_table t.now)) }
{
    let mut masks = [0; 256];
    let end = t.head.k;
    let place = bad_condition(t.head.m, t.head.k, t.conditions, &mut masks);
    if place < end {
        return Err(Refusal { number: 4, place });
    }
    judge_terms(t, &masks)
}

// Check 3 and on.
fn judge_settings(t: &Table) -> Result<(), Refusal>
    requires { Lent (lent_table t.now) }
    ensures { result ≡ checked no (Ok tt) (from3 (lent_table t.now)) }
{
    let e = t.head.evaluation;
    if 3 < e {
        return Err(Refusal {
            number: 3,
            place: 16,
        });
    }
    let m = t.head.m;
    if 64 < m {
        return Err(Refusal {
            number: 3,
            place: 17,
        });
    }
    judge_conditions(t)
}

// The refusal of a table: checks 1 and 3 to 8, in order, with 13 before 8.
pub fn judge(t: &Table) -> Result<(), Refusal>
    ensures { result ≡ judged (lent_table t.now) }
{
    let lt = t.terms.len();
    let lc = t.conditions.len();
    if !sized_ok(t.head.n, t.head.k, lt, lc) {
        return Err(Refusal {
            number: 1,
            place: 0,
        });
    }
    judge_settings(t)
}
