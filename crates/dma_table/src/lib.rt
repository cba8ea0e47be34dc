//! The DMA requests of a microcontroller's table, read from JSON.
#![tactic(auto)]

mod entries;
mod read;

pub use read::read_dma;
pub use table_members::TableFault;
