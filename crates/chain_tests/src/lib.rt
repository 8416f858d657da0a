//! Tests of whole runs, and of a carrier over a connection.
#![tactic(auto)]

#[cfg(test)]
mod cases;
#[cfg(test)]
mod example;
#[cfg(test)]
mod items;
#[cfg(test)]
mod listeners;
#[cfg(test)]
mod worlds;
