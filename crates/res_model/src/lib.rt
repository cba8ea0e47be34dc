//! The plain data that several columns of crates share, and in specs/ the definitions that several columns cite.
#![tactic(auto)]

mod clock;
mod copy;
mod limit;
mod names;
mod opts;
mod pins;
mod power;
mod project;
mod table;

pub use clock::{ClockBox, ClockChoice, Facts, Nodes, Range, Src};
pub use limit::Limit;
pub use opts::{Free, Opts};
pub use pins::number_on_port;
pub use power::{has_over, scale_limit, scale_of_step, speeds_at};
pub use project::{Home, Project, Pull, Signal, Speed};
pub use table::{
    Bounds, Domains, FlashRange, Ip, Mode, Need48, Over, Pin, PinUse, Role, Scale, StepLimits,
    TableParts, TableSignal, Tables,
};
