// The value of a condition row under 64 link values at once, and its value with every false link unset: an operator is a few operations on words.

#![tactic(auto)]

ghost use Rattle.std.specs.Prelude.{◌≡◌, ◌+◌, ◌*◌, ◌<◌, ◌≤◌, length};
ghost use Rattle.conditions.specs.Operators.{AND, EQ};
ghost use Rattle.sheet.specs.Table.{condition_row_at};
ghost use Rattle.rows.specs.Conditions.{operator_of};
ghost use Rattle.evaluate.specs.Values.{meant};
ghost use Rattle.lanes.specs.Lanes.{turned, lanes_at, link_lanes, Operated, Stepped, Valued};

use evaluate::Evaluation;
use rows::condition::{ConditionRow, Operator, condition_row};

// The lanes that are true, those that are false, and those that keep their value with every false link unset. A lane that does not keep it is then unset.
#[derive(Clone, Copy)]
pub struct Lanes {
    pub trues: u64,
    pub falses: u64,
    pub kept: u64,
}

const ALL: u64 = 18446744073709551615;

const FALSE: Lanes = Lanes {
    trues: 0,
    falses: ALL,
    kept: ALL,
};

const TRUE: Lanes = Lanes {
    trues: ALL,
    falses: 0,
    kept: ALL,
};

const UNSET: Lanes = Lanes {
    trues: 0,
    falses: 0,
    kept: 0,
};

// For each link the lanes at which it is true, and those at which it is false.
#[derive(Clone, Copy)]
pub struct LinkLanes<'a> {
    pub trues: &'a [u64; 64],
    pub falses: &'a [u64; 64],
}

impl Lanes {
    // True and false exchanged.
    fn opposite(self) -> Lanes
        ensures { result ≡ turned self }
    {
        Lanes {
            trues: self.falses,
            falses: self.trues,
            kept: self.kept,
        }
    }
}

impl LinkLanes<'_> {
    // What is kept of a link is what is true; a link from 64 on is unset.
    #[tactic(auto, unfolding(crate::specs::Lanes::link_lanes))]
    fn link(self, l: u8) -> Lanes
        ensures { result ≡ link_lanes self.entry.trues.now self.entry.falses.now l }
    {
        if 64 <= l {
            return UNSET;
        }
        let t = self.trues[l as usize];
        Lanes {
            trues: t,
            falses: self.falses[l as usize],
            kept: t,
        }
    }
}

// Lazily, a false operand that is kept keeps the lane. Strictly, a lane is false only where the other operand is set, and both operands have to be kept.
fn and(evaluation: Evaluation, a: Lanes, b: Lanes) -> Lanes
    ensures { Operated (meant evaluation) AND a b result }
{
    match evaluation {
        Evaluation::Lazy => Lanes {
            trues: a.trues & b.trues,
            falses: a.falses | b.falses,
            kept: (a.kept & (b.kept | a.falses)) | (b.kept & b.falses),
        },
        Evaluation::Strict => Lanes {
            trues: a.trues & b.trues,
            falses: (a.falses & (b.trues | b.falses)) | (a.trues & b.falses),
            kept: a.kept & b.kept,
        },
    }
}

// Under both evaluations.
fn equal(a: Lanes, b: Lanes) -> Lanes
    ensures { (e : Evaluation) → Operated (meant e) EQ a b result }
{
    Lanes {
        trues: (a.trues & b.trues) | (a.falses & b.falses),
        falses: (a.trues & b.falses) | (a.falses & b.trues),
        kept: a.kept & b.kept,
    }
}

// OR is the opposite of AND of the opposites, NE that of EQ.
fn operate(evaluation: Evaluation, o: Operator, a: Lanes, b: Lanes) -> Lanes
    ensures { Operated (meant evaluation) (operator_of o) a b result }
{
    match o {
        Operator::And => and(evaluation, a, b),
        Operator::Or => and(evaluation, a.opposite(), b.opposite()).opposite(),
        Operator::Eq => equal(a, b),
        Operator::Ne => equal(a, b).opposite(),
    }
}

fn of_row(trues: &[u64; 256], falses: &[u64; 256], kept: &[u64; 256], row: u8) -> Lanes
    ensures { result ≡ lanes_at trues.now falses.now kept.now row }
{
    Lanes {
        trues: trues[row as usize],
        falses: falses[row as usize],
        kept: kept[row as usize],
    }
}

// The value of a row in each lane, from those of other rows. These are three arrays: one of 256 lanes takes twice the instructions for a verdict, since it is cleared as a whole before it is filled.
fn step(
    evaluation: Evaluation,
    cs: &[u8],
    row: usize,
    links: LinkLanes,
    trues: &[u64; 256],
    falses: &[u64; 256],
    kept: &[u64; 256],
) -> Lanes
    requires { row * 4 + 4 ≤ length cs.now }
    ensures { Stepped (meant evaluation) (condition_row_at cs.now row) links.entry.trues.now links.entry.falses.now trues.now falses.now kept.now result }
{
    match condition_row(cs, row) {
        ConditionRow::False => FALSE,
        ConditionRow::True => TRUE,
        ConditionRow::Link(l) => links.link(l),
        ConditionRow::Operation(o, a, b) => {
            let x = of_row(trues, falses, kept, a);
            let y = of_row(trues, falses, kept, b);
            operate(evaluation, o, x, y)
        }
    }
}

// The value of a row in each lane. A row that is not there yet is false.
pub fn value(evaluation: u8, cs: &[u8], row: usize, links: LinkLanes) -> Lanes
    requires { (row * 4 + 4 ≤ length cs.now) × (row < 256) }
    ensures { Valued evaluation cs.now row links.entry.trues.now links.entry.falses.now result }
{
    let meant = Evaluation::of(evaluation);
    let mut trues = [0; 256];
    let mut falses = [ALL; 256];
    let mut kept = [ALL; 256];
    for i in 0..row {
        let x = step(meant, cs, i, links, &trues, &falses, &kept);
        trues[i] = x.trues;
        falses[i] = x.falses;
        kept[i] = x.kept;
    }
    step(meant, cs, row, links, &trues, &falses, &kept)
}
