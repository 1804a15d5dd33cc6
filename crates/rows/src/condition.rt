// What a condition row is, by its bytes.

#![tactic(auto)]

ghost use Rattle.std.specs.Prelude.{◌≡◌, ◌+◌, ◌*◌, ◌≤◌, length};
ghost use Rattle.sheet.specs.Table.{condition_row_by, condition_row_at};
ghost use Rattle.rows.specs.Conditions.{row_of};

#[derive(Clone, Copy)]
pub enum Operator {
    And,
    Or,
    Eq,
    Ne,
}

// A link, or an operator with its two operand rows.
#[derive(Clone, Copy)]
pub enum ConditionRow {
    False,
    True,
    Link(u8),
    Operation(Operator, u8, u8),
}

// A kind above 6 reads as FALSE. Here alone the byte of a kind becomes an enum.
#[tactic(auto, unfolding(crate::specs::Conditions::row_of, crate::specs::Conditions::operator_of, sheet::specs::Table::condition_row_by, sheet::specs::Table::operator_of))]
fn condition_row_by(kind: u8, a: u8, b: u8) -> ConditionRow
    ensures { row_of result ≡ condition_row_by kind a b }
{
    match kind {
        1 => ConditionRow::True,
        2 => ConditionRow::Link(a),
        3 => ConditionRow::Operation(Operator::And, a, b),
        4 => ConditionRow::Operation(Operator::Or, a, b),
        5 => ConditionRow::Operation(Operator::Eq, a, b),
        6 => ConditionRow::Operation(Operator::Ne, a, b),
        _ => ConditionRow::False,
    }
}

#[tactic(auto, unfolding(sheet::specs::Table::condition_row_at))]
pub fn condition_row(cs: &[u8], row: usize) -> ConditionRow
    requires { row * 4 + 4 ≤ length cs.now }
    ensures { row_of result ≡ condition_row_at cs.now row }
{
    let at = row * 4;
    condition_row_by(cs[at], cs[at + 1], cs[at + 2])
}
