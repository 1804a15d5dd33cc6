// The failure of one condition. Pass is decided by 2 to the number of links, the number is searched among 3 to it, both 64 at a time.

#![tactic(auto)]

ghost use Rattle.std.specs.Prelude.{◌≡◌, not, ◌+◌, ◌*◌, ◌<◌, ◌≤◌, ◌%◌, length, MatchOption};
ghost use Rattle.laws.specs.Lowest.{lowest};
ghost use Rattle.laws.specs.Listed.{listed};
ghost use Rattle.conditions.specs.Numbers.{assign};
ghost use Rattle.conditions.specs.Failure.{is_false};
ghost use Rattle.reach.specs.Masks.{has_bit};
ghost use Rattle.failure.specs.Blocks.{numbers, first_at, Unsteady};
ghost use Rattle.failure.specs.Failure.{failure_of, Narrow};

use lanes::LinkLanes;
use words::Base;

// A number at which the condition is true, and a link that is false there and, made unset, leaves it not true.
#[derive(Clone, Copy)]
pub struct Failure {
    pub number: usize,
    pub link: usize,
}

// The lanes at which the condition is true, and not with every false link unset.
fn unsteady(evaluation: u8, cs: &[u8], row: usize, links: LinkLanes) -> u64
    requires { (row * 4 + 4 ≤ length cs.now) × (row < 256) }
    ensures { Unsteady evaluation cs.now row links.entry.trues.now links.entry.falses.now result }
{
    let top = lanes::value(evaluation, cs, row, links);
    top.trues & !top.kept
}

// The smallest number in a base at which the condition is not steady. It is inlined, so that base and digits are constants.
#[inline(always)]
fn first_unsteady(
    base: Base,
    evaluation: u8,
    m: usize,
    cs: &[u8],
    row: usize,
    mask: u64,
) -> Option<usize>
    requires { Narrow m cs.now row mask }
    ensures { MatchOption result (numbers base m cs.now row ≡ first_at base evaluation m cs.now row) (λ x. (x < numbers base m cs.now row) × (x ≡ first_at base evaluation m cs.now row)) }
{
    let all = base.power(reach::width(mask));
    let digit = base.true_digit();
    for x in (0..all).step_by(64) {
        let trues = words::words(base, digit, mask, m, x);
        let falses = words::words(base, digit - 1, mask, m, x);
        let links = LinkLanes {
            trues: &trues,
            falses: &falses,
        };
        let word = unsteady(evaluation, cs, row, links);
        if word != 0 {
            let s = x + u64::trailing_zeros(word) as usize;
            if all <= s {
                return None;
            }
            return Some(s);
        }
    }
    None
}

// The lowest link that is false at a number, over the links of a mask in rising order; m where none is, as `lowest` has it.
fn false_link(mask: u64, m: usize, x: usize) -> usize
    requires { m ≤ 64 }
    ensures { result ≡ lowest (λ l. not (is_false (assign (listed (has_bit mask) 0 m) x l))) 0 m }
{
    let mut rest = x;
    for l in 0..m {
        if reach::reached(mask, l) {
            if rest % 3 == 1 {
                return l;
            }
            rest /= 3;
        }
    }
    m
}

// The failure of a condition row. Whether it passes is decided by the total assignments.
pub fn of_condition(evaluation: u8, m: usize, cs: &[u8], row: usize, mask: u64) -> Option<Failure>
    requires { Narrow m cs.now row mask }
    ensures { result ≡ failure_of evaluation m cs.now row }
{
    first_unsteady(Base::Two, evaluation, m, cs, row, mask)?;
    let number = first_unsteady(Base::Three, evaluation, m, cs, row, mask)?;
    let link = false_link(mask, m, number);
    Some(Failure { number, link })
}
