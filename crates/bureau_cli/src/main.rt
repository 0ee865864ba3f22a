#![tactic(auto)]

use console::session::run_input;

// One program stands in two crates, since the gate runs each crate's program on one script.
fn main(rt: HostRuntime) -> anyhow::Result<()> {
    run_input(&rt)
}
