//! Accesses to registers as a C function: from a list of them to its text, and from such a text back.
#![tactic(auto)]

mod fault;
mod laws;
mod part;
mod prefix;
mod read;
mod write;

pub use fault::CFault;
pub use laws::{one_reading, written_is_read};
pub use read::read_c;
pub use write::c_text;
