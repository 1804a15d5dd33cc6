// Which links have a given digit at 64 numbers at once: a word for each link.

#![tactic(auto)]

ghost use Rattle.std.specs.Prelude.{◌≡◌, ◌+◌, ◌^◌, ◌<◌, ◌≤◌, ◌%◌, length};
ghost use Rattle.laws.specs.Listed.{listed};
ghost use Rattle.reach.specs.Masks.{has_bit};
ghost use Rattle.words.specs.Words.{base_of, DigitWord, Words};

// Bit i of 0, 1, 2 .. 63.
const PATTERNS: [u64; 6] = [
    12297829382473034410,
    14757395258967641292,
    17361641481138401520,
    18374966859414961920,
    18446462603027742720,
    18446744069414584320,
];

// Of the numbers whose digits are link values: 2 for total ones, 3 for those that may be unset.
#[derive(Clone, Copy)]
pub enum Base {
    Two,
    Three,
}

impl Base {
    // The digit of a link that is true; that of one that is false is one less.
    #[tactic(auto, unfolding(crate::specs::Words::base_of))]
    pub fn true_digit(self) -> usize
        ensures digit { result + 1 ≡ base_of self }
        ensures positive { 0 < result }
    {
        match self {
            Base::Two => 1,
            Base::Three => 2,
        }
    }

    // The base to the q.
    #[tactic(auto, unfolding(crate::specs::Words::base_of))]
    pub fn power(self, q: usize) -> usize
        requires { q ≤ 8 }
        ensures { result ≡ base_of self ^ q }
    {
        let base: usize = match self {
            Base::Two => 2,
            Base::Three => 3,
        };
        base.pow(q as u32)
    }
}

// The lanes at which bit i is 1: below bit 6 the lane alone decides, from there on the number.
fn pattern(i: usize, x: usize) -> u64
    requires { (i < 8) × (x % 64 ≡ 0) }
    ensures { DigitWord 2 1 i x result }
{
    if i < 6 {
        return PATTERNS[i];
    }
    if (x >> i) % 2 == 1 { u64::MAX } else { 0 }
}

// One load in place of the 64 divisions of a ternary word.
fn binary(d: usize, i: usize, x: usize) -> u64
    requires { (d < 2) × ((i < 8) × (x % 64 ≡ 0)) }
    ensures { DigitWord 2 d i x result }
{
    let ones = pattern(i, x);
    if d == 1 { ones } else { !ones }
}

fn ternary(d: usize, i: usize, x: usize) -> u64
    requires { (i < 8) × (x ≤ 6561) }
    ensures { DigitWord 3 d i x result }
{
    let power = Base::Three.power(i);
    let mut word = 0;
    for j in 0..64 {
        if ((x + j) / power) % 3 == d {
            word |= 1 << j;
        }
    }
    word
}

#[tactic(auto, unfolding(crate::specs::Words::base_of))]
fn digit_word(base: Base, d: usize, i: usize, x: usize) -> u64
    requires { (d < base_of base) × ((i < 8) × ((x % 64 ≡ 0) × (x ≤ 6561))) }
    ensures { DigitWord (base_of base) d i x result }
{
    match base {
        Base::Two => binary(d, i, x),
        Base::Three => ternary(d, i, x),
    }
}

// A word for each link of a mask, in rising order of the links. The digit's place grows at some turns only, so no `enumerate` gives it.
pub fn words(base: Base, d: usize, mask: u64, m: usize, x: usize) -> [u64; 64]
    requires { (d < base_of base) × ((m ≤ 64) × ((length (listed (has_bit mask) 0 m) ≤ 8) × ((x % 64 ≡ 0) × (x ≤ 6561)))) }
    ensures { Words (base_of base) d (listed (has_bit mask) 0 m) x result }
{
    let mut table = [0; 64];
    let mut i = 0;
    for l in 0..m {
        if reach::reached(mask, l) {
            table[l] = digit_word(base, d, i, x);
            i += 1;
        }
    }
    table
}
