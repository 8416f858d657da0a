//! What the program does: it reads a script, runs it at a chain's nodes, and prints what happens;
//! it prints what a folder's store has; or it takes one over from format 1.
#![tactic(auto)]

mod dispatch;
mod failure;
mod folder_dump;
mod folder_failure;
mod folder_run;
mod folder_service;
mod folder_upgrade;
mod invocation;
mod reading;
mod run_input;
mod service;

pub use dispatch::serve;
pub use failure::Failure;
pub use scripts::{ScriptError, ScriptFault};
pub use service::{refuse, report, serve_script};
