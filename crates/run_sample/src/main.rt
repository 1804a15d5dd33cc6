// The program once more, on sheet X, the sample of document 01.

#![tactic(auto)]

fn main(rt: HostRuntime) {
    port::run(&rt);
}
