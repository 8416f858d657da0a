//! Tests of tables in files, of cursors over them, and of what damage answers, beyond the
//! contracts.
#![tactic(auto)]

#[cfg(test)]
mod cases;
#[cfg(test)]
mod changes;
#[cfg(test)]
mod counts;
#[cfg(test)]
mod entries;
#[cfg(test)]
mod items;
#[cfg(test)]
mod moves;
#[cfg(test)]
mod numbered;
#[cfg(test)]
mod one_put;
#[cfg(test)]
mod open_tables;
#[cfg(test)]
mod plain;
#[cfg(test)]
mod sequence;
#[cfg(test)]
mod store_walks;
#[cfg(test)]
mod table_cursors;
#[cfg(test)]
mod table_damage;
#[cfg(test)]
mod table_walks;
#[cfg(test)]
mod tables;
