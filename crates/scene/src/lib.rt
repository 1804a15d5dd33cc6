// The term rows that show what a failing condition does, for link values as bytes: 0 unset, 1 false, 2 true.

#![tactic(auto)]

ghost use Rattle.std.specs.Prelude.{◌≡◌, ◌+◌, ◌*◌, ◌<◌, ◌≤◌, length};
ghost use Rattle.laws.specs.Listed.{listed};
ghost use Rattle.conditions.specs.Numbers.{assign};
ghost use Rattle.layout.specs.InOrder.{size, in_order};
ghost use Rattle.reach.specs.Masks.{has_bit};
ghost use Rattle.evaluate.specs.Values.{links_in};
ghost use Rattle.laying.specs.LaidIn.{LaidIn};
ghost use Rattle.damage.specs.Scene.{choice, any_unset, beside, chain, scene};
ghost use Rattle.scene.specs.Lays.{Lays, LaysOuts, TrueWhereUnset};

// What a number makes of each link of a mask; other links are unset.
pub fn values(mask: u64, m: usize, x: usize) -> [u8; 64]
    requires { m ≤ 64 }
    ensures { links_in result ≡ assign (listed (has_bit mask) 0 m) x }
{
    let mut table = [0; 64];
    let mut rest = x;
    for l in 0..m {
        if reach::reached(mask, l) {
            table[l] = (rest % 3) as u8;
            rest /= 3;
        }
    }
    table
}

// Whether a link of the mask is unset.
pub fn any_unset(mask: u64, m: usize, values: &[u8; 64]) -> bool
    requires { m ≤ 64 }
    ensures { result ≡ any_unset (links_in values.now) (listed (has_bit mask) 0 m) }
{
    for l in 0..m {
        if reach::reached(mask, l) && values[l] == 0 {
            return true;
        }
    }
    false
}

// True for the links that are unset, and unset for the others.
fn true_where_unset(values: &[u8; 64]) -> [u8; 64]
    ensures { TrueWhereUnset values.now result }
{
    let mut table = [0; 64];
    for (l, value) in values.iter().enumerate() {
        table[l] = (*value == 0) as u8 * 2;
    }
    table
}

// The OUTs of the links of the mask that are not unset, in rising order, from row n on; and the next row, which grows at some turns only, so that no `enumerate` gives it. Mask, m and values are no struct: `lay` is lent them one by one, as the contract that showing cites has them.
fn outs(mask: u64, m: usize, values: &[u8; 64], out: &mut [u8], n: usize) -> usize
    requires { ((m ≤ 64) × (n + length (listed (has_bit mask) 0 m) < 256)) × ((n + length (listed (has_bit mask) 0 m)) * 4 ≤ length out.old) }
    ensures { LaysOuts (links_in values.now) (listed (has_bit mask) 0 m) n out.old result out.new }
{
    let mut next = n;
    for l in 0..m {
        let value = values[l];
        if reach::reached(mask, l) && value != 0 {
            let row = [2, l as u8, (1 < value) as u8, next as u8 + 1];
            laying::put(out, next * 4, row);
            next += 1;
        }
    }
    next
}

// The PICK: activity 1, the JOIN on condition c, activity 2 on its left, the OUT of the named link on its right.
fn choice(c: u8, l: u8, out: &mut [u8], n: usize) -> usize
    requires { (n + 7 ≤ 256) × ((n + 7) * 4 ≤ length out.old) }
    ensures { Lays (choice c l) n out.old result out.new }
{
    let i = n as u8;
    laying::put(out, n * 4, [4, i + 1, i + 5, 0]);
    laying::put(out, (n + 1) * 4, [1, 1, i + 2, 0]);
    laying::put(out, (n + 2) * 4, [3, c, i + 3, 0]);
    laying::put(out, (n + 3) * 4, [1, 2, i + 4, 0]);
    laying::put(out, (n + 4) * 4, [0, 0, 0, 0]);
    laying::put(out, (n + 5) * 4, [2, l, 1, i + 6]);
    laying::put(out, (n + 6) * 4, [0, 0, 0, 0]);
    n + 7
}

// The links are set, all but the named one; then comes the PICK.
fn chain(mask: u64, m: usize, values: &[u8; 64], l: usize, c: u8, out: &mut [u8], n: usize) -> usize
    requires { ((m ≤ 64) × (l < 64)) × ((n + (length (listed (has_bit mask) 0 m) + 7) ≤ 256) × ((n + (length (listed (has_bit mask) 0 m) + 7)) * 4 ≤ length out.old)) }
    ensures { Lays (chain (listed (has_bit mask) 0 m) (links_in values.now) l c) n out.old result out.new }
{
    let mut given = *values;
    given[l] = 0;
    let next = outs(mask, m, &given, out, n);
    choice(c, l as u8, out, next)
}

// The JOIN on FALSE, before the OUTs that set the unset links true.
fn beside(mask: u64, m: usize, values: &[u8; 64], f: u8, out: &mut [u8], n: usize) -> usize
    requires { (m ≤ 64) × ((n + (length (listed (has_bit mask) 0 m) + 2) ≤ 256) × ((n + (length (listed (has_bit mask) 0 m) + 2)) * 4 ≤ length out.old)) }
    ensures { Lays (beside (listed (has_bit mask) 0 m) (links_in values.now) f) n out.old result out.new }
{
    laying::put(out, n * 4, [3, f, n as u8 + 1, 0]);
    let rest = true_where_unset(values);
    let next = outs(mask, m, &rest, out, n + 1);
    laying::put(out, next * 4, [0, 0, 0, 0]);
    next + 1
}

// The rows for the named link l, the condition c and one that is FALSE, into an array; and how many. The FLOW comes when its right child's number is known.
pub fn lay(
    mask: u64,
    m: usize,
    values: &[u8; 64],
    unset: bool,
    l: usize,
    c: u8,
    f: u8,
    out: &mut [u8],
) -> usize
    requires { (((m ≤ 64) × (l < 64)) × ((length (listed (has_bit mask) 0 m) ≤ 8) × (104 ≤ length out.old))) × (unset ≡ any_unset (links_in values.now) (listed (has_bit mask) 0 m)) }
    ensures { LaidIn (size (scene (listed (has_bit mask) 0 m) (links_in values.now) l c f)) (in_order 0 (scene (listed (has_bit mask) 0 m) (links_in values.now) l c f)) result out.new }
{
    if !unset {
        return chain(mask, m, values, l, c, out, 0);
    }
    let right = chain(mask, m, values, l, c, out, 1);
    laying::put(out, 0, [5, 1, right as u8, 0]);
    beside(mask, m, values, f, out, right)
}
