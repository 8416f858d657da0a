//! Tests of a store that stands alone, beside a plain map, beyond the contracts.
#![tactic(auto)]

#[cfg(test)]
mod cases;
#[cfg(test)]
mod courses;
#[cfg(test)]
mod cursors;
#[cfg(test)]
mod example;
#[cfg(test)]
mod items;
#[cfg(test)]
mod openings;
#[cfg(test)]
mod retries;
#[cfg(test)]
mod scratch_folders;
