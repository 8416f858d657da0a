//! Tests of what the program writes of a store in a folder.
#![tactic(auto)]

#[cfg(test)]
mod cases;
#[cfg(test)]
mod dump_outputs;
#[cfg(test)]
mod streams;
