// The damage sheets of data/, beside what they have to be: a program of its own until request 9 lands.

#![tactic(auto)]

use cases::Cases;
use std::fs::File;
use std::io;
use std::io::Read;
use std::rt::Files;

fn try_cases(rt: &impl Print, file: impl Read + Drop) -> io::Result<()> {
    let (agreed, tried) = Cases::new(file).tally(|case, _| damage_cases::agrees(case));
    println!(rt; "damage, request 9: {agreed} of {tried} cases agree")
}

// A file that cannot be opened has no cases.
fn main(rt: HostRuntime) -> io::Result<()> {
    match File::open(&rt, "damage.cases") {
        Ok(file) => try_cases(&rt, file),
        Err(_) => try_cases(&rt, io::empty()),
    }
}
