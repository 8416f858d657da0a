//! The text of a run.

mod line;
mod names;
mod printing;
mod rows;

pub use names::{cause_name, fault_name};
pub use printing::{add_event_lines, print_result};
