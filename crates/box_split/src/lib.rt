//! Boxes of choices, and the paths that name them by halving.
#![tactic(auto)]

mod buffer;
mod halves;
mod laws;
mod parts;
mod walk;

pub use buffer::BoxBuf;
pub use halves::{is_single, keep_lower, keep_upper, low, lows, split_at};
pub use laws::{
    box_is_found_by_halving, covers_what_lies_in, halves_are_paths, halves_make_up_the_whole,
    low_is_least, no_path_covers_none, path_is_a_box, path_is_small, single_box_has_its_low,
    whole_covers_each_choice,
};
pub use walk::{is_path, of_path};
