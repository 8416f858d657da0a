//! Tests of batches and limits, of disks in memory and in folders, and of logs, beyond the
//! contracts.
#![tactic(auto)]

#[cfg(test)]
mod acts;
#[cfg(test)]
mod batches;
#[cfg(test)]
mod cases;
#[cfg(test)]
mod crashes;
#[cfg(test)]
mod faults;
#[cfg(test)]
mod folder_rows;
#[cfg(test)]
mod folders;
#[cfg(test)]
mod items;
#[cfg(test)]
mod limits;
#[cfg(test)]
mod log_texts;
#[cfg(test)]
mod logs;
#[cfg(test)]
mod ranges;
#[cfg(test)]
mod scratch_folders;
#[cfg(test)]
mod sequence;
