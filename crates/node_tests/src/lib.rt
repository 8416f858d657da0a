//! Tests of lists of nodes and of the numbers in frames, beyond the contracts.
#![tactic(auto)]

#[cfg(test)]
mod cases;
#[cfg(test)]
mod items;
#[cfg(test)]
mod kinds;
#[cfg(test)]
mod lists;
