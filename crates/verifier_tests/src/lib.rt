//! Tests of check and admit: the worked programs, one file and more for each refusal of the code, and the sheet that is left.

#![tactic(auto)]

#[cfg(test)]
mod accepts;
#[cfg(test)]
mod admits;
#[cfg(test)]
mod files;
#[cfg(test)]
mod refuses;
