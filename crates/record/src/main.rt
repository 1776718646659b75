//! Runs a program file on a recorder, and prints how it went and what the recorder's memory holds.
#![tactic(auto)]

use runner::on_recorder::record_text;
use runner::program::print_told;

fn main(rt: HostRuntime) -> anyhow::Result<()> {
    print_told(&rt, record_text)
}
