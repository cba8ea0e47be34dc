//! Wait states and power steps: what the supply voltage and the voltage regulator allow (RM0090, embedded flash and PWR).
#![tactic(auto)]

mod flash;
mod scales;

pub use flash::{is_covered, least_wait, prefetch, row_covers, wait_at};
pub use scales::{is_within_scale, scale_max};
