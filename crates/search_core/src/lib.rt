//! A search by several workers as a list of events, without a thread: each box is claimed once, whatever their order.
#![tactic(auto)]

mod boxes;
mod closes;
mod event;
mod hands;
mod laws;
mod moves;
mod state;
mod step;

pub use event::Event;
pub use laws::{
    each_box_is_claimed_once, each_cut_uses_a_kept_rank, every_run_fits,
    finished_core_is_accounted, own_boxes_stay_in_order, step_has_one_end,
    thief_takes_the_last_box,
};
pub use state::{Core, Hand};
