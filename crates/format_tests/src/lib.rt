//! Tests of the file reader: one file and more for each rule of the layout, the boundaries, and the parts that are answered.

#![tactic(auto)]

#[cfg(test)]
mod bounds;
#[cfg(test)]
mod files;
#[cfg(test)]
mod parts;
#[cfg(test)]
mod rules;
