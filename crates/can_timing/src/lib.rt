//! Bit timings of a CAN bus for an exact rate and a sample point, and why there is none.
#![tactic(auto)]

mod corners;
mod due;
mod judge;
mod laws;
mod lines;
mod register;
mod request;
mod rules;
mod timing;
mod walk;

pub use due::{answer, can_text};
pub use judge::{CanJudge, check_can};
pub use laws::{
    choices_are_timings, least_choice_is_the_first_timing, lower_ranks_come_first,
    no_choice_is_no_timing, register_holds_the_timing, verdicts_are_lawful,
};
pub use register::btr;
pub use request::Request;
pub use timing::{Timing, timing_of};
