//! The plain data of DMA requests, and the bounds that each table of them keeps.
#![tactic(auto)]

mod table;

pub use table::{DmaRequest, DmaRow, DmaTable};
