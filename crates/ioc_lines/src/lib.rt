//! Laws of a project's lines.
#![tactic(auto)]

mod laws;

pub use laws::{
    keys_get_their_new_pin, keys_have_values, keys_of_pins_are_named, keys_stay_with_other_values,
    lines_are_read, lines_are_the_text, names_are_read_back, numbers_are_plain,
    projects_are_read_again, signals_are_where_lines_put_them,
};
