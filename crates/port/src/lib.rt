// From standard input to standard output. What cannot be read or written is said on standard error: a refusal is the answer to a sheet that was read.

#![tactic(auto)]

// Reads the input, and writes what is printed for it. The buffer for the input has 4,096 bytes: none behind them changes what is printed.
pub fn run(rt: &(impl Input + Print + Eprint)) {
    let mut buffer = [0; 4096];
    let Ok(input) = filling::fill(&mut rt.reader(), &mut buffer) else {
        let _ = eprintln!(rt; "cannot read standard input");
        return;
    };
    let mut out = [0; printing::LONGEST];
    let length = printing::print(input, &mut out);
    if rt.write_all(&out[..length]).is_err() {
        let _ = eprintln!(rt; "cannot write standard output");
    }
}
