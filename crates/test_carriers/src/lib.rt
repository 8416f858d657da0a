//! Carriers in memory for tests: they lose, alter or carry once what they are to carry.
#![tactic(auto)]

mod altering;
mod losing;
mod only_once;

pub use altering::{Alteration, Altering};
pub use losing::Losing;
pub use only_once::OnlyOnce;
