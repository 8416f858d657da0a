//! Tests of the files of a store, in memory and in a folder, and of how many tables, logs and
//! numbers it may have, beyond the contracts.
#![tactic(auto)]

#[cfg(test)]
mod cases;
#[cfg(test)]
mod files;
#[cfg(test)]
mod folder_stores;
#[cfg(test)]
mod full_stores;
#[cfg(test)]
mod items;
#[cfg(test)]
mod last_numbers;
#[cfg(test)]
mod scratch_folders;
#[cfg(test)]
mod stores;
