//! Tests of stores that merge, beyond the contracts: each rule at its edges, a fault at each call,
//! and random courses beside a plain store.
#![tactic(auto)]

#[cfg(test)]
mod acts;
#[cfg(test)]
mod cases;
#[cfg(test)]
mod files;
#[cfg(test)]
mod items;
#[cfg(test)]
mod long_tends;
#[cfg(test)]
mod merge_courses;
#[cfg(test)]
mod merge_faults;
#[cfg(test)]
mod merge_rows;
#[cfg(test)]
mod merge_rules;
#[cfg(test)]
mod numbers;
#[cfg(test)]
mod plain_store;
#[cfg(test)]
mod random_merges;
#[cfg(test)]
mod sequence;
#[cfg(test)]
mod watched_disk;
