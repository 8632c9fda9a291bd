// The search program on a run with store mode 1 (EXPECTED.md).
#![tactic(auto)]

fn main(rt: HostRuntime) {
    console::run(rt);
}
