//! Tests of merges of tables, beyond the contracts.
#![tactic(auto)]

#[cfg(test)]
mod cases;
#[cfg(test)]
mod counts;
#[cfg(test)]
mod entries;
#[cfg(test)]
mod items;
#[cfg(test)]
mod lettered;
#[cfg(test)]
mod merged_tables;
#[cfg(test)]
mod merges;
#[cfg(test)]
mod old_tables;
#[cfg(test)]
mod open_tables;
