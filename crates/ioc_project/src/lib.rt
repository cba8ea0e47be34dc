//! A project: its signals with their homes, the homes of its clock variables and its marks, read from the lines of its text.
#![tactic(auto)]

mod clocks;
mod domains;
mod fault;
mod homes;
mod laws;
mod marks;
mod needs;
mod part;
mod pins;
mod project;
mod signals;
mod values;

pub use clocks::facts;
pub use fault::ProjectFault;
pub use laws::needs_have_no_home;
pub use project::read_project;
pub use res_model::{Home, Project, Pull, Signal, Speed};
