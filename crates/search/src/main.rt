// The search program (01, "The search program"): records from standard input, lines to standard output.
#![tactic(auto)]

fn main(rt: HostRuntime) {
    console::run(rt);
}
