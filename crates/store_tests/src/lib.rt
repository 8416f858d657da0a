//! Tests of the reads of a store, beyond the contracts, beside a plain store.
#![tactic(auto)]

#[cfg(test)]
mod cases;
#[cfg(test)]
mod items;
#[cfg(test)]
mod levels;
#[cfg(test)]
mod marked_stores;
#[cfg(test)]
mod numbers;
#[cfg(test)]
mod plain_store;
#[cfg(test)]
mod random_rows;
#[cfg(test)]
mod row_reads;
#[cfg(test)]
mod sequence;
#[cfg(test)]
mod watched_disk;
