// What a term row and a condition row are by their bytes, and the children of a term row.

#![tactic(auto)]

pub mod condition;
pub mod term;

ghost use Rattle.std.specs.Prelude.{◌≡◌};
ghost use Rattle.steps.specs.Rows.{first_of, second_of};
ghost use Rattle.sheet.specs.Table.{row_by};

// The only or left child that a row's bytes name, and the right one; 0 for none.
pub fn first_by(kind: u8, a: u8, b: u8, c: u8) -> u8
    ensures { result ≡ first_of (row_by kind a b c) }
{
    term::term_by(kind, a, b, c).first()
}

pub fn second_by(kind: u8, a: u8, b: u8, c: u8) -> u8
    ensures { result ≡ second_of (row_by kind a b c) }
{
    term::term_by(kind, a, b, c).second()
}
