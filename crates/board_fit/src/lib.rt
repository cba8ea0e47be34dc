//! Boards that are too wide to be ranked in one number: the pins are searched first, and then the clocks.
#![tactic(auto)]

mod boards;
mod copies;
mod fixing;
mod laws;
mod texts;

pub use boards::board;
pub use fixing::fixed;
pub use laws::{
    board_has_one_of_three_statuses, canonical_tree_of_parts, cost_and_index_of_parts,
    facts_of_parts, least_of_parts, limits_of_parts, narrow_board_is_as_resolved, none_of_parts,
};
pub use texts::choice_text;
