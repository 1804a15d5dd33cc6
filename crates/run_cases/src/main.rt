// The cases of data/: what the program prints, and what the calls answer, beside what has to be.

#![tactic(auto)]

use cases::Cases;
use std::fs::File;
use std::io;
use std::io::Read;
use std::rt::Files;

// More than any text of a case of the program.
const TEXT: usize = 65792;

// What answers an input: the program; the calls on a state; the calls on a table; the call that tells how a state stands, alone or with the one that tells what it waits for; the counts of a state; the call that compacts.
#[derive(Clone, Copy)]
enum Kind {
    Program,
    States,
    Tables,
    Standing,
    Waiting,
    Counts,
    Compacted,
}

// The rest of a case of the program, whose input begins here.
fn program_agrees(case: &mut Cases<impl Read>, size: usize) -> bool {
    let mut given = [0; TEXT];
    let input = case.text(size, &mut given);
    let told = case.four();
    let mut wanted = [0; TEXT];
    let expected = case.text(told, &mut wanted);
    let mut out = [0; printing::LONGEST];
    let length = printing::print(input, &mut out);
    &out[..length] == expected
}

fn agrees(case: &mut Cases<impl Read>, size: usize, kind: Kind) -> bool {
    match kind {
        Kind::Program => program_agrees(case, size),
        Kind::States => state_cases::agrees(case),
        Kind::Tables => table_cases::agrees(case),
        Kind::Standing => standing_cases::agrees(case, false),
        Kind::Waiting => standing_cases::agrees(case, true),
        Kind::Counts => counts_cases::agrees(case),
        Kind::Compacted => compact_cases::agrees(case),
    }
}

fn try_cases(rt: &impl Print, file: impl Read + Drop, kind: Kind) -> io::Result<()> {
    let (agreed, tried) = Cases::new(file).tally(|case, size| agrees(case, size, kind));
    println!(rt; "{agreed} of {tried} cases agree")
}

// A file that cannot be opened has no cases.
fn try_file(rt: &(impl Files + Print), name: &str, path: &str, kind: Kind) -> io::Result<()> {
    print!(rt; "{name}: ")?;
    match File::open(rt, path) {
        Ok(file) => try_cases(rt, file, kind),
        Err(_) => try_cases(rt, io::empty(), kind),
    }
}

fn main(rt: HostRuntime) -> io::Result<()> {
    try_file(&rt, "examples", "examples.cases", Kind::Program)?;
    try_file(&rt, "base", "base.cases", Kind::Program)?;
    try_file(&rt, "request 1", "level-1.cases", Kind::Program)?;
    try_file(&rt, "request 3", "level-3.cases", Kind::Program)?;
    try_file(&rt, "request 5", "level-5.cases", Kind::Program)?;
    try_file(&rt, "request 8", "level-8.cases", Kind::Program)?;
    try_file(&rt, "states", "states-base.cases", Kind::States)?;
    try_file(&rt, "tables", "tables-base.cases", Kind::Tables)?;
    try_file(&rt, "standing", "standing-1.cases", Kind::Standing)?;
    try_file(&rt, "states, request 3", "states-3.cases", Kind::States)?;
    try_file(&rt, "tables, request 3", "tables-3.cases", Kind::Tables)?;
    try_file(
        &rt,
        "standing, request 3",
        "standing-3.cases",
        Kind::Standing,
    )?;
    try_file(&rt, "waiting, request 5", "standing.cases", Kind::Waiting)?;
    try_file(&rt, "states, request 6", "states-6.cases", Kind::States)?;
    try_file(&rt, "counts, request 6", "counts.cases", Kind::Counts)?;
    try_file(
        &rt,
        "compacted, request 8",
        "compact.cases",
        Kind::Compacted,
    )
}
