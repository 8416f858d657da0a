//! Tests of entries in memory, of cursors and pages over them, of filters, of the parts of a table,
//! and of its blocks and its bytes in a file, beyond the contracts.
#![tactic(auto)]

#[cfg(test)]
mod builders;
#[cfg(test)]
mod cases;
#[cfg(test)]
mod changes;
#[cfg(test)]
mod counts;
#[cfg(test)]
mod entries;
#[cfg(test)]
mod files;
#[cfg(test)]
mod filters;
#[cfg(test)]
mod items;
#[cfg(test)]
mod memtables;
#[cfg(test)]
mod moves;
#[cfg(test)]
mod numbered;
#[cfg(test)]
mod one_put;
#[cfg(test)]
mod open_tables;
#[cfg(test)]
mod pages;
#[cfg(test)]
mod parts;
#[cfg(test)]
mod plain;
#[cfg(test)]
mod sequence;
#[cfg(test)]
mod small_tables;
#[cfg(test)]
mod walks;
