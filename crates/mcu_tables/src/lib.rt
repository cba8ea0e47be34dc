//! The table of a microcontroller's pins, signals and clocks, read from JSON.
#![tactic(auto)]

mod clock;
mod defaults;
mod flash;
mod ips;
mod pins;
mod read;
mod reset;
mod rows;
mod scales;
mod signals;

pub use read::read_tables;
pub use res_model::{
    Bounds, Domains, FlashRange, Ip, Mode, Need48, Over, Pin, PinUse, Role, Scale, StepLimits,
    TableParts, TableSignal, Tables,
};
pub use table_members::TableFault;
