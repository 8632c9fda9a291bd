// The search program on a run with store mode 0 that meets every refusal that records can meet (EXPECTED.md).
#![tactic(auto)]

fn main(rt: HostRuntime) {
    console::run(rt);
}
