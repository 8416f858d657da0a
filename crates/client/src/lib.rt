//! Scripts are run in a world of nodes, and printed statement by statement.
#![tactic(auto)]

mod printed_run;
mod run_error;
mod script_run;
mod statement_result;
mod text;

pub use printed_run::run_script;
pub use run_error::RunError;
pub use text::{cause_name, fault_name};
