//! Scripts: the statements that a text spells, or the least fault of its first faulty line.
#![tactic(auto)]

mod action;
mod command;
mod configuration;
mod extent;
mod laws;
mod look_up;
mod reader;
mod setup;
mod statement;
mod statements;
mod submit;

pub use extent::Extent;
pub use laws::{faults_are_refused, scripts_are_read, spellings_differ};
pub use reader::{Script, ScriptFault, read_script};
pub use script_words::ScriptError;
pub use setup::Setup;
pub use statement::{Action, Statement};
