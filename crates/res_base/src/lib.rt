//! Numbers, fractions, sets of variables, and texts and lists that contracts see as lists.
#![tactic(auto)]

mod decimal;
mod items;
mod memory;
mod ratio;
mod text;
mod var_set;

pub use decimal::{parse_dec, put_dec};
pub use items::Items;
pub use memory::OutOfMemory;
pub use ratio::Ratio;
pub use text::{Text, put_line};
pub use var_set::{VarSet, same_set};
