// Rows as a table of flags: how many there are, and their numbers, rising, to a lent buffer. A flag stays a byte, 0 or 1, in `Shows`: tables of flags are counted and compared as bytes.

#![tactic(auto)]

ghost use Rattle.std.specs.Prelude.{◌≡◌, ◌++◌, ◌≤◌, length, drop};
ghost use Rattle.laws.specs.Listed.{listed, written};
ghost use Rattle.flags.specs.Flags.{flagged};

// How many of the first n rows are flagged.
pub fn count(flags: &[u8; 256], n: usize) -> usize
    requires { n ≤ 256 }
    ensures { result ≡ length (listed (flagged flags.now) 0 n) }
{
    let mut found: u16 = 0;
    for i in 0..n {
        found += (flags[i] == 1) as u16;
    }
    found as usize
}

// Their numbers, in rising order. The place grows at some turns only, so no `enumerate` gives it.
fn write(flags: &[u8; 256], n: usize, out: &mut [u8])
    requires { (n ≤ 256) × (length (listed (flagged flags.now) 0 n) ≤ length out.old) }
    ensures { out.new ≡ listed (flagged flags.now) 0 n ++ drop (length (listed (flagged flags.now) 0 n)) out.old }
{
    let mut found = 0;
    for i in 0..n {
        if flags[i] == 1 {
            out[found] = i as u8;
            found += 1;
        }
    }
}

// Their numbers to a lent buffer, and how many there are; a buffer that is too short is left as it is.
pub fn fill(flags: &[u8; 256], n: usize, out: &mut [u8]) -> usize
    requires { n ≤ 256 }
    ensures { (result ≡ length (listed (flagged flags.now) 0 n)) × (out.new ≡ written (listed (flagged flags.now) 0 n) out.old) }
{
    let size = count(flags, n);
    if out.len() < size {
        return size;
    }
    write(flags, n, out);
    size
}
