// What a term row is, by its bytes.

#![tactic(auto)]

ghost use Rattle.std.specs.Prelude.{◌≡◌, ◌+◌, ◌*◌, ◌≤◌, length};
ghost use Rattle.steps.specs.Rows.{first_of, second_of, is_act};
ghost use Rattle.steps.specs.InFront.{names};
ghost use Rattle.sheet.specs.Table.{row_by, row_at};
ghost use Rattle.rows.specs.Term.{row_of};

// What a row is. Of an OUT `value` is what it sets its link to.
#[derive(Clone, Copy)]
pub enum TermRow {
    Nil,
    Act { activity: u8, child: u8 },
    Out { link: u8, value: bool, child: u8 },
    Join { condition: u8, child: u8 },
    Pick { left: u8, right: u8 },
    Flow { left: u8, right: u8 },
}

impl TermRow {
    // The only or left child that the row names; 0 for none, as `first_of` has it.
    #[tactic(auto, unfolding(steps::specs::Rows::first_of))]
    pub fn first(self) -> u8
        ensures { result ≡ first_of (row_of self) }
    {
        match self {
            TermRow::Nil => 0,
            TermRow::Act { child, .. } => child,
            TermRow::Out { child, .. } => child,
            TermRow::Join { child, .. } => child,
            TermRow::Pick { left, .. } | TermRow::Flow { left, .. } => left,
        }
    }

    // The right child that it names; 0 for none, as `second_of` has it.
    #[tactic(auto, unfolding(steps::specs::Rows::second_of))]
    pub fn second(self) -> u8
        ensures { result ≡ second_of (row_of self) }
    {
        match self {
            TermRow::Pick { right, .. } | TermRow::Flow { right, .. } => right,
            _ => 0,
        }
    }

    // The row names another as a child.
    #[tactic(auto, using(laws::proofs::Tests::or_is), unfolding(steps::specs::InFront::names))]
    pub fn names(self, child: usize) -> bool
        ensures { result ≡ names (row_of self) child }
    {
        (self.first() as usize == child) | (self.second() as usize == child)
    }

    #[tactic(auto, unfolding(steps::specs::Rows::is_act, steps::specs::Rows::is_act_prefix))]
    pub fn is_act(self) -> bool
        ensures { result ≡ is_act (row_of self) }
    {
        matches!(self, TermRow::Act { .. })
    }
}

// The row that four bytes say. A kind of 6 or more reads as NIL. Here alone the byte of a kind becomes an enum.
#[tactic(auto, unfolding(sheet::specs::Table::row_by))]
pub fn term_by(kind: u8, a: u8, b: u8, c: u8) -> TermRow
    ensures { row_of result ≡ row_by kind a b c }
{
    match kind {
        1 => TermRow::Act {
            activity: a,
            child: b,
        },
        2 => TermRow::Out {
            link: a,
            value: b == 1,
            child: c,
        },
        3 => TermRow::Join {
            condition: a,
            child: b,
        },
        4 => TermRow::Pick { left: a, right: b },
        5 => TermRow::Flow { left: a, right: b },
        _ => TermRow::Nil,
    }
}

// A row of a table of bytes.
#[tactic(auto, unfolding(sheet::specs::Table::row_at))]
pub fn term_row(ts: &[u8], row: usize) -> TermRow
    requires { row * 4 + 4 ≤ length ts.now }
    ensures { row_of result ≡ row_at ts.now row }
{
    let at = row * 4;
    term_by(ts[at], ts[at + 1], ts[at + 2], ts[at + 3])
}
