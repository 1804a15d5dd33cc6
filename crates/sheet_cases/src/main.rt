// Sheets and tables at each limit, with refusals 1 to 8, 12 and 13: what `codec` and `judge` answer when they read, judge and write.

#![tactic(auto)]

ghost use Rattle.std.specs.Prelude.{◌<◌, ◌≤◌};

use samples::Sample;
use sheet::{Head, Refusal, Table};
use std::io;

fn say_refused(rt: &impl Print, refusal: Refusal) -> io::Result<()> {
    let number = refusal.number;
    let place = refusal.place;
    println!(rt; ": refused {number} {place}")
}

fn read(rt: &impl Print, name: &str, s: &[u8]) -> io::Result<()> {
    print!(rt; "read {name}")?;
    match codec::read(s) {
        Ok(h) => println!(rt;
            ": evaluation {}, links {}, rows {}, conditions {}",
            h.evaluation, h.m, h.n, h.k
        ),
        Err(refusal) => say_refused(rt, refusal),
    }
}

// Head and rows come one by one: seven tables written out would be longer.
fn judge(rt: &impl Print, name: &str, h: Head, ts: &[u8], cs: &[u8]) -> io::Result<()> {
    print!(rt; "judge {name}")?;
    let t = Table {
        head: h,
        terms: ts,
        conditions: cs,
    };
    match judge::judge(&t) {
        Ok(()) => println!(rt; ": accepted"),
        Err(refusal) => say_refused(rt, refusal),
    }
}

fn judge_sample(rt: &impl Print, name: &str, h: Head, s: &Sample) -> io::Result<()> {
    judge(
        rt,
        name,
        h,
        s.terms.as_flattened(),
        s.conditions.as_flattened(),
    )
}

// Written to the first `lent` bytes of a buffer, and what was written read back.
fn write(
    rt: &impl Print,
    name: &str,
    h: Head,
    s: &Sample,
    out: &mut [u8; 2067],
    lent: usize,
) -> io::Result<()>
    requires { lent ≤ 2067 }
{
    print!(rt; "write {name}")?;
    let t = Table {
        head: h,
        terms: s.terms.as_flattened(),
        conditions: s.conditions.as_flattened(),
    };
    match codec::write(&t, &mut out[..lent]) {
        Ok(size) => {
            println!(rt; ": size {size}")?;
            read(rt, name, &out[..size.min(2067)])
        }
        Err(refusal) => say_refused(rt, refusal),
    }
}

fn head(m: usize, n: usize, k: usize) -> Head {
    Head {
        evaluation: 0,
        m,
        n,
        k,
    }
}

// The smallest sheet.
const SMALLEST: [u8; 22] = [
    3, 1, 16, 0, 2, 0, 2, 18, 0, 4, 0, 3, 22, 0, 0, 0, 0, 0, 0, 0, 0, 0,
];

// 1 to 3, of a sheet; of the later ones each is the smallest with one byte changed.
fn sheets(rt: &impl Print) -> io::Result<()> {
    let s = SMALLEST;
    let long = [0; 2067];
    read(rt, "no bytes", &s[..0])?;
    read(rt, "21 bytes", &s[..21])?;
    read(rt, "22 bytes", &s)?;
    read(rt, "2066 zeros", &long[..2066])?;
    read(rt, "2067 zeros", &long)?;
    for (name, at, x) in [
        ("count 2", 0, 2),
        ("settings of 3 bytes", 4, 3),
        ("settings at 16 + 16 * 256", 3, 16),
        ("terms of kind 3", 6, 3),
        ("terms of 6 bytes", 9, 6),
        ("terms of 4 + 1024 bytes", 10, 4),
        ("conditions at 23", 12, 23),
        ("conditions past the end", 14, 4),
        ("evaluation 1", 16, 1),
        ("evaluation 3", 16, 3),
        ("evaluation 4", 16, 4),
        ("64 links", 17, 64),
        ("65 links", 17, 65),
    ] {
        changed(rt, name, at, x)?;
    }
    Ok(())
}

fn changed(rt: &impl Print, name: &str, at: usize, x: u8) -> io::Result<()> {
    let mut s = SMALLEST;
    if at < 22 {
        s[at] = x;
    }
    read(rt, name, &s)
}

// 1, of a table; what lies beyond its rows is no part of it.
fn sizes(rt: &impl Print) -> io::Result<()> {
    let mut ts = [0; 1028];
    let cs = [0; 1028];
    ts[4] = 9;
    judge(rt, "no row", head(0, 0, 0), &ts, &cs)?;
    judge(
        rt,
        "a broken row beyond the only one",
        head(0, 1, 0),
        &ts,
        &cs,
    )?;
    judge(rt, "257 rows", head(0, 257, 0), &ts, &cs)?;
    judge(rt, "257 conditions", head(0, 1, 257), &ts, &cs)?;
    judge(rt, "a row of 3 bytes", head(0, 1, 0), &ts[..3], &cs)?;
    judge(rt, "a condition of 3 bytes", head(0, 1, 1), &ts, &cs[..3])?;
    judge(
        rt,
        "no condition, none lent",
        head(0, 1, 0),
        &ts[..4],
        &cs[..0],
    )
}

// 4
fn conditions(rt: &impl Print) -> io::Result<()> {
    for (name, row, bytes) in [
        ("condition 0 of kind 7", 0, [7, 0, 0, 0]),
        ("condition 0 with link 2 of 2", 0, [2, 2, 0, 0]),
        ("condition 0 with link 1 of 2", 0, [2, 1, 0, 0]),
        ("condition 1, FALSE with a spare byte", 1, [0, 0, 0, 1]),
        ("condition 1 with itself as operand", 1, [3, 0, 1, 0]),
        ("condition 255 with itself as operand", 255, [6, 255, 0, 0]),
        (
            "condition 255 with 254 and 0 as operands",
            255,
            [6, 254, 0, 0],
        ),
    ] {
        condition(rt, name, row, bytes)?;
    }
    Ok(())
}

fn condition(rt: &impl Print, name: &str, row: u8, bytes: [u8; 4]) -> io::Result<()> {
    let mut s = Sample::new();
    s.conditions[row as usize] = bytes;
    judge_sample(rt, name, head(2, 1, 256), &s)
}

// 5: of three rows, the one after `row` ACT rows
fn terms(rt: &impl Print) -> io::Result<()> {
    for (name, row, bytes) in [
        ("row 0 of kind 6", 0, [6, 0, 0, 0]),
        ("row 0, NIL with a spare byte", 0, [0, 0, 0, 1]),
        ("row 0 with itself as child", 0, [1, 0, 0, 0]),
        ("row 0 with link 1 of 1", 0, [2, 1, 0, 1]),
        ("row 0 with value 2", 0, [2, 0, 2, 1]),
        ("row 0 with condition 1 of 1", 0, [3, 1, 1, 0]),
        ("row 1 with child 3 of 3", 1, [1, 0, 3, 0]),
        ("row 1 with row 0 as child", 1, [5, 0, 2, 0]),
        ("row 1 with row 2 as child", 1, [3, 0, 2, 0]),
    ] {
        term(rt, name, row, bytes)?;
    }
    Ok(())
}

fn term(rt: &impl Print, name: &str, row: u8, bytes: [u8; 4]) -> io::Result<()> {
    let mut s = Sample::new();
    s.put_acts(0, row);
    s.terms[row as usize] = bytes;
    judge_sample(rt, name, head(1, 3, 1), &s)
}

// 6
fn trees(rt: &impl Print) -> io::Result<()> {
    let mut s = Sample::new();
    judge_sample(rt, "row 1 not named", head(0, 2, 0), &s)?;
    s.terms[0] = [5, 1, 1, 0];
    judge_sample(rt, "row 1 named twice", head(0, 2, 0), &s)?;
    s.terms[0] = [5, 1, 2, 0];
    judge_sample(rt, "rows 1 and 2 named once", head(0, 3, 0), &s)?;
    judge_sample(rt, "row 3 not named", head(0, 4, 0), &s)?;
    s.terms[1] = [1, 0, 2, 0];
    judge_sample(rt, "row 2 named twice", head(0, 3, 0), &s)?;
    s.put_acts(0, 254);
    judge_sample(rt, "row 255 not named", head(0, 256, 0), &s)
}

// 7
fn two_sources(rt: &impl Print, name: &str, link: u8) -> io::Result<()> {
    let mut s = Sample::new();
    s.put_outs(0, 64);
    s.terms[64] = [2, link, 0, 65];
    judge_sample(rt, name, head(64, 66, 0), &s)
}

fn sources(rt: &impl Print) -> io::Result<()> {
    two_sources(rt, "link 0 with two sources", 0)?;
    two_sources(rt, "link 63 with two sources", 63)
}

// 13: an OUT row, a JOIN on LINK 0, LINK 1 or the OR of both, and an OUT row behind it
fn waits(rt: &impl Print, name: &str, before: u8, condition: u8, behind: u8) -> io::Result<()> {
    let mut s = Sample::new();
    s.terms[0] = [2, before, 1, 1];
    s.terms[1] = [3, condition, 2, 0];
    s.terms[2] = [2, behind, 1, 3];
    s.put_links(2);
    judge_sample(rt, name, head(3, 4, 3), &s)
}

// A JOIN, at a row, that reaches links 0 to `last`; from another row on so many OUT rows, one for each link from 0 on.
fn join(rt: &impl Print, name: &str, last: u8, row: u8, first: u8, outs: u8) -> io::Result<()>
    requires link_given { last < 64 }
    requires row_given { row < 255 }
{
    let mut s = Sample::new();
    s.put_outs(first, outs);
    s.put_links(last + 1);
    s.terms[row as usize] = [3, 2 * last, row + 1, 0];
    let l = last as usize;
    judge_sample(rt, name, head(l + 1, outs as usize + 2, 2 * l + 1), &s)
}

fn wanted(rt: &impl Print) -> io::Result<()> {
    for (name, before, condition, behind) in [
        ("a JOIN on link 1, which no row sets", 0, 1, 2),
        ("a JOIN on links 0 and 1, of which no row sets 1", 0, 2, 2),
        ("a JOIN on link 1, which a row behind it sets", 0, 1, 1),
        ("a JOIN on link 0, and link 1 wanted by none", 0, 0, 2),
        (
            "a JOIN on link 1, which no row sets, and two set 0",
            0,
            1,
            0,
        ),
    ] {
        waits(rt, name, before, condition, behind)?;
    }
    join(rt, "a JOIN after 8 links, which reaches 9", 8, 8, 0, 8)
}

// 8: links 0 to `last`, an OUT row for each, and a JOIN that reaches them all, after or before the OUT rows
fn links(rt: &impl Print) -> io::Result<()> {
    join(rt, "a JOIN after 8 links that it reaches", 7, 8, 0, 8)?;
    join(rt, "a JOIN after 9 links that it reaches", 8, 9, 0, 9)?;
    join(rt, "a JOIN before 8 links that it reaches", 7, 0, 1, 8)?;
    join(rt, "a JOIN before 9 links that it reaches", 8, 0, 1, 9)
}

// 12, and the limits of n, k and m
fn writing(rt: &impl Print) -> io::Result<()> {
    let mut s = Sample::new();
    let mut out = [170; 2067];
    let smallest = head(0, 1, 0);
    write(rt, "the smallest to 21 bytes", smallest, &s, &mut out, 21)?;
    write(rt, "the smallest to 22 bytes", smallest, &s, &mut out, 22)?;
    write(rt, "the smallest to more", smallest, &s, &mut out, 2067)?;
    println!(rt; "past it {}", out[22])?;
    write(rt, "a refused table", head(0, 2, 0), &s, &mut out, 21)?;
    s.put_typical();
    write(rt, "a typical table", head(3, 24, 6), &s, &mut out, 2067)?;
    s.put_largest();
    let largest = head(64, 256, 256);
    write(rt, "the largest to 2065 bytes", largest, &s, &mut out, 2065)?;
    write(rt, "the largest to 2066 bytes", largest, &s, &mut out, 2066)?;
    s.put_acts(0, 255);
    let acts = head(0, 256, 0);
    write(
        rt,
        "256 rows, no condition, no link",
        acts,
        &s,
        &mut out,
        2067,
    )?;
    println!(rt; "past the largest {}", out[2066])
}

fn main(rt: HostRuntime) -> io::Result<()> {
    sheets(&rt)?;
    sizes(&rt)?;
    conditions(&rt)?;
    terms(&rt)?;
    trees(&rt)?;
    sources(&rt)?;
    wanted(&rt)?;
    links(&rt)?;
    writing(&rt)
}
