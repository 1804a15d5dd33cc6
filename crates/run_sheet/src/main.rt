// Runs a sheet, as document 01's section "The program" says.

#![tactic(auto)]

fn main(rt: HostRuntime) {
    port::run(&rt);
}
