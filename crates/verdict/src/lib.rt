// The verdict of a table. Each condition row is tried once; number and link are searched for one JOIN only.

#![tactic(auto)]

ghost use Rattle.sheet.specs.Table.{lent_table};
ghost use Rattle.std.specs.Prelude.{◌≡◌};
ghost use Rattle.verdict.specs.Verdict.{verdict_of, Judged};

use rows::term::{TermRow, term_row};
use sheet::Table;

// What a sheet is judged to be. No `Option`: `Pass` is an answer, not the lack of one.
#[derive(Clone, Copy)]
pub enum Verdict {
    Pass,
    Fail {
        row: usize,
        number: usize,
        link: usize,
    },
}

// The verdict of a table that is judged. A condition row that has been tried, and passes, is seen.
pub fn give(t: &Table) -> Verdict
    requires { Judged (lent_table t.now) }
    ensures { result ≡ verdict_of (lent_table t.now) }
{
    let masks = reach::masks(t.conditions, t.head.k);
    let mut seen = [false; 256];
    for j in 0..t.head.n {
        let TermRow::Join { condition, .. } = term_row(t.terms, j) else {
            continue;
        };
        if seen[condition as usize] {
            continue;
        }
        let mask = reach::mask_of(&masks, condition);
        let tried = failure::of_condition(
            t.head.evaluation,
            t.head.m,
            t.conditions,
            condition as usize,
            mask,
        );
        if let Some(failure) = tried {
            return Verdict::Fail {
                row: j,
                number: failure.number,
                link: failure.link,
            };
        }
        seen[condition as usize] = true;
    }
    Verdict::Pass
}
