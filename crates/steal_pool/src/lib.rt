//! A search by 1 to 16 workers at a time. What it answers is accounted for, whatever the schedule.
#![tactic(auto)]

mod back;
mod crew;
mod gather;
mod rest;
mod search;
mod shift;
mod workers;

pub use search::search_by;
pub use workers::pool;
