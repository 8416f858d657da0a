//! Tests of manifests, of adoptions, and of logs as an engine reads them, beyond the contracts.
#![tactic(auto)]

#[cfg(test)]
mod acts;
#[cfg(test)]
mod adoptions;
#[cfg(test)]
mod calls;
#[cfg(test)]
mod cases;
#[cfg(test)]
mod damaged_logs;
#[cfg(test)]
mod damaged_slots;
#[cfg(test)]
mod items;
#[cfg(test)]
mod manifests;
#[cfg(test)]
mod rewrites;
#[cfg(test)]
mod upgrades;
