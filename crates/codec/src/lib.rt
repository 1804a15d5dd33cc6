// Reading a sheet from any bytes, handing on its bodies, and writing a table.

#![tactic(auto)]

ghost use Rattle.std.specs.Prelude.{◌≡◌, ◌+◌, ◌*◌, ◌<◌, ◌≤◌, length};
ghost use Rattle.std.proofs.Math.Seq.{paste};
ghost use Rattle.laws.specs.Checks.{place_of};
ghost use Rattle.laws.specs.Listed.{written};
ghost use Rattle.sheet.specs.Rules.{judged};
ghost use Rattle.sheet.specs.Sheet.{number_at, entry_ok, in_fours, contents, contents_ok, head_of, settings_of, terms_of, conditions_of, table_in, front, size_of, sheet_of};
ghost use Rattle.codec.specs.Answers.{read_of, part_of, write_of, written_of, Framed, InRange};

use sheet::{Head, Refusal, Table};

// A number of two bytes, the lower first.
fn two(s: &[u8], at: usize) -> usize
    requires { (at + 2 ≤ length s.now) × (at < 256) }
    ensures { (result ≡ number_at s.now at) × (result < 65536) }
{
    u16::from_le_bytes([s[at], s[at + 1]]) as usize
}

fn entry_ok(s: &[u8], at: usize, kind: u8, start: usize) -> bool
    requires { (at + 3 ≤ length s.now) × (at < 255) }
    ensures { result ≡ entry_ok s.now at kind start }
{
    (s[at] == kind) & (two(s, at + 1) == start)
}

fn in_fours(low: usize, size: usize) -> bool
    ensures { result ≡ in_fours low size }
{
    (low <= size) & ((size <= 1024) & (size % 4 == 0))
}

fn settings_ok(s: &[u8]) -> bool
    requires { 22 ≤ length s.now }
    ensures { result ≡ contents_ok s.now 1 }
{
    entry_ok(s, 1, 1, 16) & (two(s, 4) == 2)
}

fn terms_ok(s: &[u8]) -> bool
    requires { 22 ≤ length s.now }
    ensures { result ≡ contents_ok s.now 6 }
{
    entry_ok(s, 6, 2, 18) & in_fours(4, two(s, 9))
}

fn conditions_ok(s: &[u8]) -> bool
    requires { 22 ≤ length s.now }
    ensures { result ≡ contents_ok s.now 11 }
{
    let t = two(s, 9);
    let c = two(s, 14);
    entry_ok(s, 11, 3, 18 + t) & (in_fours(0, c) & (18 + (t + c) == s.len()))
}

// 2: the place of the first fault in the contents; 12 where there is none, as `place_of` has it.
fn bad_contents(s: &[u8]) -> usize
    requires { 22 ≤ length s.now }
    ensures { result ≡ place_of (contents s.now) }
{
    if s[0] != 3 {
        return 0;
    }
    if !settings_ok(s) {
        return 1;
    }
    if !terms_ok(s) {
        return 6;
    }
    if !conditions_ok(s) {
        return 11;
    }
    12
}

fn head_of(s: &[u8]) -> Head
    requires { 22 ≤ length s.now }
    ensures { result ≡ head_of s.now }
{
    Head {
        evaluation: s[16],
        m: s[17] as usize,
        n: two(s, 9) / 4,
        k: two(s, 14) / 4,
    }
}

// The bodies of terms and conditions, where the contents are right.
fn terms_in(s: &[u8]) -> &[u8]
    requires { Framed s.now }
    ensures { result.now ≡ terms_of s.now }
{
    let end = 18 + two(s, 9);
    &s[18..end]
}

fn conditions_in(s: &[u8]) -> &[u8]
    requires { Framed s.now }
    ensures { result.now ≡ conditions_of s.now }
{
    let start = 18 + two(s, 9);
    let end = start + two(s, 14);
    &s[start..end]
}

// 1, 3 to 8 and 13 of the table of the parts.
fn judge_parts(s: &[u8]) -> Result<(), Refusal>
    requires { Framed s.now }
    ensures { result ≡ judged (table_in s.now) }
{
    judge::judge(&Table {
        head: head_of(s),
        terms: terms_in(s),
        conditions: conditions_in(s),
    })
}

// The head of a sheet, or its refusal.
pub fn read(s: &[u8]) -> Result<Head, Refusal>
    ensures { result ≡ read_of s.now }
{
    let size = s.len();
    if size < 22 {
        return Err(Refusal {
            number: 1,
            place: 0,
        });
    }
    if 2066 < size {
        return Err(Refusal {
            number: 1,
            place: 0,
        });
    }
    let fault = bad_contents(s);
    if fault < 12 {
        return Err(Refusal {
            number: 2,
            place: fault,
        });
    }
    judge_parts(s)?;
    Ok(head_of(s))
}

// The bodies of an accepted sheet, parts of the lent bytes; empty where the sheet is refused.
pub fn settings(s: &[u8]) -> &[u8]
    ensures { result.now ≡ part_of s.now (settings_of s.now) }
{
    match read(s) {
        Ok(_) => &s[16..18],
        Err(_) => &s[0..0],
    }
}

pub fn terms(s: &[u8]) -> &[u8]
    ensures { result.now ≡ part_of s.now (terms_of s.now) }
{
    match read(s) {
        Ok(_) => terms_in(s),
        Err(_) => &s[0..0],
    }
}

pub fn conditions(s: &[u8]) -> &[u8]
    ensures { result.now ≡ part_of s.now (conditions_of s.now) }
{
    match read(s) {
        Ok(_) => conditions_in(s),
        Err(_) => &s[0..0],
    }
}

// The bytes before the bodies of terms and conditions: contents and settings.
fn front(h: Head) -> [u8; 18]
    requires { (h.m ≤ 64) × ((h.n ≤ 256) × (h.k ≤ 256)) }
    ensures { result ≡ front h }
{
    let t = 4 * h.n;
    let terms = (t as u16).to_le_bytes();
    let start = (18 + t as u16).to_le_bytes();
    let conditions = (4 * h.k as u16).to_le_bytes();
    [
        3,
        1,
        16,
        0,
        2,
        0,
        2,
        18,
        0,
        terms[0],
        terms[1],
        3,
        start[0],
        start[1],
        conditions[0],
        conditions[1],
        h.evaluation,
        h.m as u8,
    ]
}

// The first bytes of one slice into another, from a place on: the library's copy, said by `paste`, of which the bytes of a table are three.
fn copy(out: &mut [u8], at: usize, from: &[u8], count: usize)
    requires { (at + count ≤ length out.old) × (count ≤ length from.now) }
    ensures { out.new ≡ paste out.old at from.now count }
{
    out[at..at + count].copy_from_slice(&from[..count]);
}

// The bytes of a table to a lent buffer, and how many; a buffer that is too short is left as it is. Nothing is judged.
pub fn lay(t: &Table, out: &mut [u8]) -> usize
    requires { InRange t.now.head t.now.terms.now t.now.conditions.now }
    ensures { (result ≡ size_of t.now.head) × (out.new ≡ written (sheet_of t.now.head t.now.terms.now t.now.conditions.now) out.old) }
{
    let n = 4 * t.head.n;
    let k = 4 * t.head.k;
    let size = 18 + (n + k);
    if out.len() < size {
        return size;
    }
    let first = front(t.head);
    copy(out, 0, &first, 18);
    copy(out, 18, t.terms, n);
    copy(out, 18 + n, t.conditions, k);
    size
}

// The bytes of a table, and how many; or its refusal, or 12 with the size that is needed.
pub fn write(t: &Table, out: &mut [u8]) -> Result<usize, Refusal>
    ensures { (result ≡ write_of t.now.head t.now.terms.now t.now.conditions.now (length out.old)) × (out.new ≡ written_of t.now.head t.now.terms.now t.now.conditions.now out.old) }
{
    judge::judge(t)?;
    let room = out.len();
    let size = lay(t, out);
    if room < size {
        return Err(Refusal {
            number: 12,
            place: size,
        });
    }
    Ok(size)
}
