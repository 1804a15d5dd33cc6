// Rows of four bytes one after another: a row is put into an array, and its new number is how many come before it.

#![tactic(auto)]

ghost use Rattle.std.specs.Prelude.{◌≡◌, ℕ, List, ◌+◌, ◌*◌, ◌<◌, ◌≤◌, get_or, length};
ghost use Rattle.std.proofs.Math.Seq.{paste};
ghost use Rattle.laws.specs.Sums.{count};
ghost use Rattle.flags.specs.Flags.{flagged};
ghost use Rattle.laws.specs.Listed.{listed};
ghost use Rattle.layout.specs.Bytes.{laid};
ghost use Rattle.laying.specs.Told.{Tells};
ghost use Rattle.laying.specs.LaidIn.{LaidIn};

// A row's bytes into an array, at any place: `scene` puts its FLOW last.
pub fn put(out: &mut [u8], at: usize, row: [u8; 4])
    requires { (length row ≡ 4) × (at + 4 ≤ length out.old) }
    ensures { out.new ≡ paste out.old at row 4 }
{
    out[at..at + 4].copy_from_slice(&row);
}

// The rank of each row: how many are flagged before it. The rank grows at some turns only, so no `enumerate` gives it.
pub fn ranks(flags: &[u8; 256], n: usize) -> [u8; 256]
    requires { n ≤ 256 }
    ensures { Tells (count (flagged flags.now)) 0 n result }
{
    let mut table = [0; 256];
    let mut found = 0;
    for i in 0..n {
        table[i] = found as u8;
        found += (flags[i] == 1) as usize;
    }
    table
}

// The rows that are flagged, in their old order, into an array, each by its bytes; and how many. That number grows at some turns only, so no `enumerate` gives it.
pub fn lay<F: Fn(usize) -> [u8; 4]>(flags: &[u8; 256], n: usize, row: F, out: &mut [u8]) -> usize
    requires room { (n ≤ 256) × (n * 4 ≤ length out.old) }
    requires asked { (i : ℕ) → i < n → F.pre row i }
    requires four { (i : ℕ) (r : List ℕ) → i < n → F.post row i r → length r ≡ 4 }
    ensures { (bytes : ℕ → List ℕ) → ((i : ℕ) (r : List ℕ) → i < n → F.post row i r → r ≡ bytes i) → LaidIn (count (flagged flags.now) n) (laid bytes (listed (flagged flags.now) 0 n)) result out.new }
{
    let mut count = 0;
    for i in 0..n {
        if flags[i] == 1 {
            let bytes = row(i);
            put(out, count * 4, bytes);
            count += 1;
        }
    }
    count
}

// What a table has at a number.
pub fn entry(table: &[u8; 256], i: u8) -> u8
    ensures { result ≡ get_or table.now i 0 }
{
    table[i as usize]
}
