//! Runs a program file on a label, and prints how it went and what it wrote.
#![tactic(auto)]

use runner::on_label::run_text;
use runner::program::print_told;

fn main(rt: HostRuntime) -> anyhow::Result<()> {
    print_told(&rt, run_text)
}
