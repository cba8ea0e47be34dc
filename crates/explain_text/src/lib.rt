//! What a choice changes against a project, and why no choice meets the limits, in lines for a person.
#![tactic(auto)]

mod changes;
mod clocks;
mod figures;
mod hertz;
mod laws;
mod limits;
mod power;
mod reasons;
mod rivals;

pub use changes::changes_text;
pub use laws::{all_choices_have_every_value, numbers_have_names};
pub use reasons::why_text;
pub use rivals::pin_name;
