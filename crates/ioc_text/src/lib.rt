//! A project's text: its lines, and those that have a named key.
#![tactic(auto)]

mod escapes;
mod fault;
mod ioc;
mod keys;
mod line;
mod lines;
mod marks;
mod outs;
mod read;

pub use escapes::{equals_at, undo_into};
pub use fault::IocFault;
pub use ioc::Ioc;
pub use keys::pin_number;
pub use line::Line;
pub use read::read_ioc;
