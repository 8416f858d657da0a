//! Tests of the program's streams: a script that can't be read, an output that takes no more.
#![tactic(auto)]

#[cfg(test)]
mod cases;
#[cfg(test)]
mod program_streams;
#[cfg(test)]
mod streams;
