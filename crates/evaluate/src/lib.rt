// The values of condition rows under link values, in rising order of the rows.

#![tactic(auto)]

ghost use Rattle.std.specs.Prelude.{◌≡◌, ℕ, ◌+◌, ◌*◌, ◌<◌, ◌≤◌, length};
ghost use Rattle.conditions.specs.Operators.{table};
ghost use Rattle.conditions.specs.Numbers.{digit, undigit};
ghost use Rattle.conditions.specs.ByRows.{strictly, operate, value_by};
ghost use Rattle.sheet.specs.Table.{condition_row_at, lazy_of, evaluation_of, eval_of};
ghost use Rattle.rows.specs.Conditions.{operator_of};
ghost use Rattle.evaluate.specs.Values.{meant, links_in, Evaluated, value_in};

use rows::condition::{ConditionRow, Operator, condition_row};

// Two bits a condition row, four rows a byte; a value is a number, 0 unset, 1 false, 2 true, as `value_in` has it.
pub type Values = [u8; 64];

// An operator's values: left operand unset, false, true; right operand in the same order.
type Table = [[u8; 3]; 3];

const AND: Table = [[0, 1, 0], [1, 1, 1], [0, 1, 2]];

const OR: Table = [[0, 0, 2], [0, 1, 2], [2, 2, 2]];

const EQ: Table = [[0, 0, 0], [0, 2, 1], [0, 1, 2]];

const NE: Table = [[0, 0, 0], [0, 1, 2], [0, 2, 1]];

pub fn is_lazy(evaluation: u8) -> bool
    ensures { result ≡ lazy_of evaluation }
{
    (evaluation == 1) | (evaluation == 3)
}

#[derive(Clone, Copy)]
pub enum Evaluation {
    Strict,
    Lazy,
}

impl Evaluation {
    // That of a number of the head.
    #[tactic(auto, unfolding(crate::specs::Values::meant, sheet::specs::Table::evaluation_of))]
    pub fn of(number: u8) -> Evaluation
        ensures { meant result ≡ evaluation_of number }
    {
        if is_lazy(number) {
            Evaluation::Lazy
        } else {
            Evaluation::Strict
        }
    }
}

// A byte as a value: 0 unset, 1 false, any other true.
fn reading(x: u8) -> u8
    ensures { (result ≡ digit (undigit x)) × (result < 3) }
{
    x.min(2)
}

fn by_table(o: Operator, l: u8, r: u8) -> u8
    ensures { result ≡ digit (table (operator_of o) (undigit l) (undigit r)) }
{
    let x = reading(l) as usize;
    let y = reading(r) as usize;
    match o {
        Operator::And => AND[x][y],
        Operator::Or => OR[x][y],
        Operator::Eq => EQ[x][y],
        Operator::Ne => NE[x][y],
    }
}

// Either operand unset gives unset.
fn strictly(o: Operator, l: u8, r: u8) -> u8
    ensures { result ≡ digit (strictly (operator_of o) (undigit l) (undigit r)) }
{
    if l == 0 || r == 0 {
        0
    } else {
        by_table(o, l, r)
    }
}

#[tactic(auto, unfolding(crate::specs::Values::meant, conditions::specs::ByRows::operate))]
fn operate(evaluation: Evaluation, o: Operator, l: u8, r: u8) -> u8
    ensures { result ≡ digit (operate (meant evaluation) (operator_of o) (undigit l) (undigit r)) }
{
    match evaluation {
        Evaluation::Strict => strictly(o, l, r),
        Evaluation::Lazy => by_table(o, l, r),
    }
}

// The value of a link; one from 64 on is unset.
#[tactic(auto, unfolding(crate::specs::Values::links_in, conditions::specs::Numbers::digit))]
fn link_value(links: &[u8; 64], l: u8) -> u8
    ensures { result ≡ digit (links_in links.now l) }
{
    if l < 64 {
        reading(links[l as usize])
    } else {
        0
    }
}

// The value of a row, from a table of values.
pub fn value_in(vals: &Values, row: u8) -> u8
    ensures { result ≡ value_in vals.now row }
{
    (vals[(row / 4) as usize] >> (row % 4 * 2)) % 4
}

// Puts x in for a row that holds FALSE, that is 1; every other row keeps its value.
fn put(vals: &mut Values, row: usize, x: u8)
    requires { (length vals.old ≡ 64) × ((row < 256) × ((value_in vals.old row ≡ 1) × (x < 4))) }
    ensures { (length vals.new ≡ 64) × (((j : ℕ) → (j ≡ row → ⊥) → value_in vals.new j ≡ value_in vals.old j) × (value_in vals.new row ≡ x)) }
{
    vals[row / 4] ^= (x ^ 1) << (row % 4 * 2);
}

// The value of a row, from those of other rows.
#[tactic(auto, unfolding(conditions::specs::ByRows::value_by, conditions::specs::Numbers::digit, rows::specs::Conditions::row_of))]
fn value_by(evaluation: Evaluation, cs: &[u8], row: usize, links: &[u8; 64], vals: &Values) -> u8
    requires { row * 4 + 4 ≤ length cs.now }
    ensures { result ≡ digit (value_by (meant evaluation) (condition_row_at cs.now row) (links_in links.now) (λ j. undigit (value_in vals.now j))) }
{
    match condition_row(cs, row) {
        ConditionRow::False => 1,
        ConditionRow::True => 2,
        ConditionRow::Link(l) => link_value(links, l),
        ConditionRow::Operation(o, a, b) => operate(
            evaluation,
            o,
            value_in(vals, a),
            value_in(vals, b),
        ),
    }
}

// The values of the first k rows; 85 has FALSE at each of its four places.
pub fn values(evaluation: u8, cs: &[u8], k: usize, links: &[u8; 64]) -> Values
    requires { (k * 4 ≤ length cs.now) × (k ≤ 256) }
    ensures { Evaluated evaluation cs.now (links_in links.now) k result }
{
    let meant = Evaluation::of(evaluation);
    let mut vals = [85; 64];
    for i in 0..k {
        let v = value_by(meant, cs, i, links, &vals);
        put(&mut vals, i, v);
    }
    vals
}
