// The condition rows that one reaches, in their old order, as bytes under new numbers.

#![tactic(auto)]

ghost use Rattle.std.specs.Prelude.{◌≡◌, ℕ, ◌+◌, ◌*◌, ◌<◌, ◌≤◌, length};
ghost use Rattle.conditions.specs.Conditions.{OP};
ghost use Rattle.sheet.specs.Table.{condition_row_at};
ghost use Rattle.layout.specs.Bytes.{four, condition_bytes};
ghost use Rattle.rows.specs.Conditions.{operator_of};
ghost use Rattle.flags.specs.Flags.{Shows};
ghost use Rattle.damage.specs.Reached.{reaches_row, LowerTo};
ghost use Rattle.excerpt.specs.Excerpt.{with_operands, new_bytes, Excerpts};

use rows::condition::{ConditionRow, Operator, condition_row};

// The operands of a row are flagged too.
#[tactic(auto, unfolding(crate::specs::Excerpt::with_operands, rows::specs::Conditions::row_of))]
fn flag_operands(cs: &[u8], row: usize, flags: &mut [u8; 256])
    requires { (row * 4 + 4 ≤ length cs.now) × (length flags.old ≡ 256) }
    ensures { flags.new ≡ with_operands (condition_row_at cs.now row) flags.old }
{
    if let ConditionRow::Operation(_, a, b) = condition_row(cs, row) {
        flags[a as usize] = 1;
        flags[b as usize] = 1;
    }
}

// The rows that row c reaches. Operands have lower numbers, so the last row comes first.
fn reached_rows(cs: &[u8], c: u8) -> [u8; 256]
    requires { (c * 4 + 4 ≤ length cs.now) × LowerTo cs.now (c + 1) }
    ensures { Shows (reaches_row (condition_row_at cs.now) c) 256 result }
{
    let mut flags = [0; 256];
    flags[c as usize] = 1;
    for row in (0..c as usize + 1).rev() {
        if flags[row] == 1 {
            flag_operands(cs, row, &mut flags);
        }
    }
    flags
}

// The kind of an operator's rows.
#[tactic(auto, unfolding(rows::specs::Conditions::operator_of, layout::specs::Bytes::condition_bytes))]
fn kind_of(o: Operator) -> u8
    ensures { (a b : ℕ) → condition_bytes (OP (operator_of o) a b) ≡ four result a b 0 }
{
    match o {
        Operator::And => 3,
        Operator::Or => 4,
        Operator::Eq => 5,
        Operator::Ne => 6,
    }
}

// The bytes of a row, its operands under their new numbers.
#[tactic(auto, unfolding(crate::specs::Excerpt::new_bytes, damage::specs::Reached::renumbered_condition, rows::specs::Conditions::row_of, layout::specs::Bytes::condition_bytes))]
fn new_row(cs: &[u8], row: usize, ranks: &[u8; 256]) -> [u8; 4]
    requires { row * 4 + 4 ≤ length cs.now }
    ensures { result ≡ new_bytes (condition_row_at cs.now row) ranks.now }
{
    match condition_row(cs, row) {
        ConditionRow::False => [0, 0, 0, 0],
        ConditionRow::True => [1, 0, 0, 0],
        ConditionRow::Link(l) => [2, l, 0, 0],
        ConditionRow::Operation(o, a, b) => {
            [
                kind_of(o),
                laying::entry(ranks, a),
                laying::entry(ranks, b),
                0,
            ]
        }
    }
}

// The rows that row c reaches into an array, and how many; row c is the last.
pub fn lay(cs: &[u8], k: usize, c: u8, out: &mut [u8]) -> usize
    requires { (((k ≤ 256) × (k * 4 ≤ length cs.now)) × (k * 4 ≤ length out.old)) × ((c < k) × LowerTo cs.now k) }
    ensures { Excerpts cs.now k c result out.new }
{
    let flags = reached_rows(cs, c);
    let ranks = laying::ranks(&flags, k);
    let row = |i: usize|
        requires { i * 4 + 4 ≤ length cs.now }
        ensures { result ≡ new_bytes (condition_row_at cs.entry.now i) ranks }
    { new_row(cs, i, &ranks) };
    laying::lay(&flags, k, row, out)
}
