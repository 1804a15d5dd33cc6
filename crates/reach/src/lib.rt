// The links that each condition row reaches, as the bits of a word.

#![tactic(auto)]

ghost use Rattle.std.specs.Prelude.{◌≡◌, ◌+◌, ◌*◌, ◌<◌, ◌≤◌, length, get_or};
ghost use Rattle.laws.specs.Up.{Filled};
ghost use Rattle.laws.specs.Listed.{listed};
ghost use Rattle.sheet.specs.Table.{condition_row_at};
ghost use Rattle.reach.specs.Masks.{has_bit, link_bit, within, mask_by, mask_at};

use rows::condition::{ConditionRow, condition_row};

// A link as a bit; none from 64 on.
#[tactic(auto, unfolding(crate::specs::Masks::link_bit))]
pub fn bit(l: u8) -> u64
    ensures { result ≡ link_bit l }
{
    if l < 64 { 1 << l } else { 0 }
}

// The mask of a row, from a table of masks.
pub fn mask_of(masks: &[u64; 256], row: u8) -> u64
    ensures { result ≡ get_or masks.now row 0 }
{
    masks[row as usize]
}

// The mask of a row, from those of other rows.
#[tactic(auto, unfolding(crate::specs::Masks::mask_by, rows::specs::Conditions::row_of))]
pub fn step(cs: &[u8], row: usize, masks: &[u64; 256]) -> u64
    requires { row * 4 + 4 ≤ length cs.now }
    ensures { result ≡ mask_by (condition_row_at cs.now row) (λ j. get_or masks.now j 0) }
{
    match condition_row(cs, row) {
        ConditionRow::False | ConditionRow::True => 0,
        ConditionRow::Link(l) => bit(l),
        ConditionRow::Operation(_, a, b) => mask_of(masks, a) | mask_of(masks, b),
    }
}

// The links that each of the first k rows reaches, in rising order of the rows.
pub fn masks(cs: &[u8], k: usize) -> [u64; 256]
    requires { (k * 4 ≤ length cs.now) × (k ≤ 256) }
    ensures { Filled 0 (mask_at cs.now) k result }
{
    let mut table = [0; 256];
    for i in 0..k {
        table[i] = step(cs, i, &table);
    }
    table
}

// Whether a link is among those of a mask.
pub fn reached(mask: u64, l: usize) -> bool
    requires { l < 64 }
    ensures { result ≡ has_bit mask l }
{
    (mask >> l) % 2 == 1
}

// Whether every link of a mask is in another.
pub fn within(mask: u64, links: u64) -> bool
    ensures { result ≡ within mask links }
{
    (mask | links) == links
}

// How many links a mask has.
pub fn width(mask: u64) -> usize
    ensures { result ≡ length (listed (has_bit mask) 0 64) }
{
    u64::count_ones(mask) as usize
}
