//! Configurations of a chain: its nodes from head to tail. The configuration service has one list
//! of them.
#![tactic(auto)]

mod config;
mod configs;
mod epoch;
mod error;
mod id;
pub mod laws;
mod reading;

pub use config::Config;
pub use configs::Configs;
pub use epoch::Epoch;
pub use error::ConfigError;
pub use id::NodeId;
