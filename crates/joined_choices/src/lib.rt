//! Choices of two shapes joined: what holds of the joined choice by what holds of its parts.
#![tactic(auto)]

mod laws;

pub use laws::{
    costs_and_indices_add_up, each_choice_is_joined, least_choice_is_of_least_parts,
    none_is_legal_where_no_part_is, ranks_keep_the_order_of_parts,
};
