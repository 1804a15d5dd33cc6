// The small sheet that shows what the failing condition of a JOIN row does.

#![tactic(auto)]

ghost use Rattle.std.specs.Prelude.{◌≡◌, length};
ghost use Rattle.sheet.specs.Table.{lent_table};
ghost use Rattle.sheet.specs.Rules.{refusal_of};
ghost use Rattle.showing.specs.Answers.{show_answer, show_buffer};
ghost use Rattle.showing.specs.Asked.{Asked};

use failure::Failure;
use sheet::{Head, Refusal, Table};

// The sheet for a JOIN row whose condition, on the links of the mask, fails at a number by a link: 15 where it would have too many condition rows, then 12. A FALSE row is put behind the kept condition rows, and counts where a link is left unset.
fn write(
    t: &Table,
    row: usize,
    mask: u64,
    number: usize,
    link: usize,
    out: &mut [u8],
) -> Result<usize, Refusal>
    requires { Asked (lent_table t.now) row mask number link }
    ensures { (result ≡ show_answer (lent_table t.now) row (length out.old)) × (out.new ≡ show_buffer (lent_table t.now) row out.old) }
{
    let mut conditions = [0; 1028];
    let kept = excerpt::lay(
        t.conditions,
        t.head.k,
        t.terms[row * 4 + 1],
        &mut conditions,
    );
    laying::put(&mut conditions, kept * 4, [0, 0, 0, 0]);
    let values = scene::values(mask, t.head.m, number);
    let unset = scene::any_unset(mask, t.head.m, &values);
    let k = kept + unset as usize;
    if 256 < k {
        return Err(Refusal {
            number: 15,
            place: row,
        });
    }
    let mut terms = [0; 104];
    let n = scene::lay(
        mask,
        t.head.m,
        &values,
        unset,
        link,
        (kept - 1) as u8,
        (k - 1) as u8,
        &mut terms,
    );
    let head = Head {
        evaluation: evaluate::is_lazy(t.head.evaluation) as u8,
        m: t.head.m,
        n,
        k,
    };
    let room = out.len();
    let small = Table {
        head,
        terms: &terms,
        conditions: &conditions,
    };
    let size = codec::lay(&small, out);
    if room < size {
        return Err(Refusal {
            number: 12,
            place: size,
        });
    }
    Ok(size)
}

// The sheet for any row of an accepted table: 15 where it is no JOIN whose condition fails.
pub fn show(t: &Table, row: usize, out: &mut [u8]) -> Result<usize, Refusal>
    requires { (refusal_of (lent_table t.now)).number ≡ 0 }
    ensures { (result ≡ show_answer (lent_table t.now) row (length out.old)) × (out.new ≡ show_buffer (lent_table t.now) row out.old) }
{
    let none = Refusal {
        number: 15,
        place: row,
    };
    if t.head.n <= row {
        return Err(none);
    }
    if t.terms[row * 4] != 3 {
        return Err(none);
    }
    let c = t.terms[row * 4 + 1];
    let masks = reach::masks(t.conditions, t.head.k);
    let mask = reach::mask_of(&masks, c);
    match failure::of_condition(t.head.evaluation, t.head.m, t.conditions, c as usize, mask) {
        None => Err(none),
        Some(Failure { number, link }) => write(t, row, mask, number, link, out),
    }
}
