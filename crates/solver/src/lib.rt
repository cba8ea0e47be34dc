//! What is due for a problem: the text of its least choice, or why there is none.
#![tactic(auto)]

mod cases;
mod checked;
mod pins;
mod proof_text;
mod whole;
mod wide;

pub use cases::resolve_case;
pub use checked::check;
pub use pins::place;
pub use whole::resolve;
pub use wide::too_wide;
