//! The judges of boxes of a problem.
#![tactic(auto)]

mod clocks;
mod contest;
mod halls;
mod kept;
mod pins;

pub use clocks::PinClockJudge;
pub use halls::PinRoom;
pub use kept::PinClockRoom;
pub use pins::PinJudge;
