// What a condition is worth: its value and, where that is unset, the link it waits for; and what is told of the JOIN rows that wait.

#![tactic(auto)]

ghost use Rattle.std.specs.Prelude.{◌≡◌, not, ◌++◌, map, ℕ, ◌+◌, ◌-◌, ◌*◌, ◌<◌, ◌≤◌, eqb, length, get_or, drop, MatchOption, IfSome};
ghost use Rattle.laws.specs.Lowest.{lowest};
ghost use Rattle.conditions.specs.Numbers.{undigit};
ghost use Rattle.sheet.specs.Table.{condition_row_at};
ghost use Rattle.reach.specs.Masks.{has_bit};
ghost use Rattle.evaluate.specs.Values.{links_in, value_in};
ghost use Rattle.worth.specs.Sets.{placed, in_set, Adds};
ghost use Rattle.worth.specs.Worth.{awaited_at, worth_by, wait_byte};
ghost use Rattle.worth.specs.Pass.{is_operand, lower_by, lowered, condition_byte, byte_of, RowLent};

use evaluate::Values;
use rows::condition::{ConditionRow, condition_row};

// The value of a condition; where it is unset, with the lowest unset link reached from it.
#[derive(Clone, Copy)]
pub enum Worth {
    Unset(u8),
    False,
    True,
}

// The byte that is told of a row that waits for no link: links are below 64. No `Option`, since it is a byte of a lent buffer.
pub const NO_LINK: u8 = 255;

// A set of condition rows, 64 a word, the highest row first.
type Rows = [u64; 4];

// One row more.
fn add(rows: &mut Rows, row: u8)
    requires { length rows.old ≡ 4 }
    ensures { Adds (λ r. eqb r row) rows.old rows.new }
{
    let place = 255 - row;
    let at = (place / 64) as usize;
    rows[at] |= 1 << (place % 64);
}

// Whether a row is in the set.
fn is_in(rows: &Rows, row: u8) -> bool
    ensures { result ≡ in_set rows.now row }
{
    let place = 255 - row;
    (rows[(place / 64) as usize] >> (place % 64)) % 2 == 1
}

// The first bit of a word from one on that is set.
fn first_bit(word: u64, from: usize) -> Option<usize>
    requires { from < 64 }
    ensures { MatchOption result (64 ≡ lowest (λ l. not (has_bit word l)) from (64 - from)) (λ l. (l < 64) × (l ≡ lowest (λ l. not (has_bit word l)) from (64 - from))) }
{
    let rest = word >> from;
    if rest == 0 {
        return None;
    }
    Some(from + u64::trailing_zeros(rest) as usize)
}

// The first place from one on at which a row stands.
fn next(rows: &Rows, from: usize) -> Option<usize>
    requires { from ≤ 256 }
    ensures { MatchOption result (256 ≡ lowest (λ p. not (placed rows.now p)) from (256 - from)) (λ at. (at < 256) × (at ≡ lowest (λ p. not (placed rows.now p)) from (256 - from))) }
{
    for word in from / 64..4 {
        if let Some(bit) = first_bit(rows[word], from.saturating_sub(word * 64)) {
            return Some(word * 64 + bit);
        }
    }
    None
}

// The lower of two links, of which the first counts where it is unset.
fn lower(links: &[u8; 64], l: u8, low: u8) -> u8
    requires { low ≤ 64 }
    ensures { result ≡ lower_by (links_in links.now) l low }
{
    if l < low && links[l as usize] == 0 {
        l
    } else {
        low
    }
}

// A row that is reached: an operator adds its operands, a link that is unset may be the lowest.
fn visit(cs: &[u8], row: usize, links: &[u8; 64], low: u8, rows: &mut Rows) -> u8
    requires { (row * 4 + 4 ≤ length cs.now) × ((low ≤ 64) × (length rows.old ≡ 4)) }
    ensures { (result ≡ lowered (condition_row_at cs.now row) (links_in links.now) low) × Adds (is_operand (condition_row_at cs.now row)) rows.old rows.new }
{
    match condition_row(cs, row) {
        ConditionRow::False | ConditionRow::True => low,
        ConditionRow::Link(l) => lower(links, l, low),
        ConditionRow::Operation(_, a, b) => {
            add(rows, a);
            add(rows, b);
            low
        }
    }
}

// The lowest unset link reached from a row; 64 where there is none, as `awaited_at` has it. Only rows that are reached are looked at, in falling order: an operand that is not below its row is never come to.
fn awaited(cs: &[u8], row: u8, links: &[u8; 64]) -> u8
    requires { row * 4 + 4 ≤ length cs.now }
    ensures { result ≡ awaited_at cs.now row (links_in links.now) }
{
    let mut rows = [0; 4];
    add(&mut rows, row);
    let mut low = 64;
    let mut from = 255 - row as usize;
    while let Some(at) = next(&rows, from) {
        low = visit(cs, 255 - at, links, low, &mut rows);
        from = at + 1;
    }
    low
}

// What a row is worth, from a table of values, which has two bits for each.
pub fn of_row(vals: &Values, cs: &[u8], row: u8, links: &[u8; 64]) -> Worth
    requires { row * 4 + 4 ≤ length cs.now }
    ensures { result ≡ worth_by (undigit (value_in vals.now row)) (awaited_at cs.now row (links_in links.now)) }
{
    match evaluate::value_in(vals, row) {
        0 => Worth::Unset(awaited(cs, row, links)),
        1 => Worth::False,
        _ => Worth::True,
    }
}

// The byte that is told: the link, or that there is none.
fn byte(worth: Worth) -> u8
    ensures { result ≡ wait_byte worth }
{
    match worth {
        Worth::Unset(l) => l,
        Worth::False | Worth::True => NO_LINK,
    }
}

// The number of a JOIN row's condition row.
fn condition_byte(ts: &[u8], row: u8) -> u8
    requires { row * 4 + 4 ≤ length ts.now }
    ensures { result ≡ condition_byte ts.now row }
{
    ts[row as usize * 4 + 1]
}

// Of the JOIN rows before another, the place of one on a condition that has been asked, whose byte is known. The set of those asked only saves time: the byte is right whatever it holds.
fn told_at(asked: &Rows, q: u8, ts: &[u8], joins: &[u8]) -> Option<usize>
    requires { (i : ℕ) → i < length joins.now → get_or joins.now i 0 * 4 + 4 ≤ length ts.now }
    ensures { IfSome result (λ i. (i < length joins.now) × (condition_byte ts.now (get_or joins.now i 0) ≡ q)) }
{
    if !is_in(asked, q) {
        return None;
    }
    for (i, row) in joins.iter().enumerate() {
        if condition_byte(ts, *row) == q {
            return Some(i);
        }
    }
    None
}

// For each JOIN row of a list the byte that is told of it, to a lent buffer; each condition is searched once.
pub fn tell(ts: &[u8], cs: &[u8], links: &[u8; 64], vals: &Values, joins: &[u8], out: &mut [u8])
    requires { (length joins.now ≤ length out.old) × ((i : ℕ) → i < length joins.now → RowLent ts.now cs.now (get_or joins.now i 0)) }
    ensures { out.new ≡ map (byte_of ts.now cs.now links.now vals.now) joins.now ++ drop (length joins.now) out.old }
{
    let mut asked = [0; 4];
    for (i, row) in joins.iter().enumerate() {
        let q = condition_byte(ts, *row);
        out[i] = match told_at(&asked, q, ts, &joins[..i]) {
            Some(first) => out[first],
            None => {
                add(&mut asked, q);
                byte(of_row(vals, cs, q, links))
            }
        };
    }
}
