//! The words of the command line, read by the grammar of the program.
#![tactic(auto)]

mod command;
mod commands;
mod fault;
mod flags;
mod given;
mod on_projects;
mod options;
mod requests;
mod values;

pub use command::Command;
pub use commands::read_words;
pub use fault::UsageFault;
pub use res_model::{Free, Opts};
