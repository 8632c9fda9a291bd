// The search program on an input and with an output of more than two buffers (EXPECTED.md).
#![tactic(auto)]

fn main(rt: HostRuntime) {
    console::run(rt);
}
