//! Tests of runs: what each instruction does, how a go stops, and what the cells hold.

#![tactic(auto)]

#[cfg(test)]
mod arithmetic;
#[cfg(test)]
mod calls;
#[cfg(test)]
mod ends;
#[cfg(test)]
mod jumps;
#[cfg(test)]
mod opcodes;
#[cfg(test)]
mod programs;
#[cfg(test)]
mod stack;
#[cfg(test)]
mod units;
