//! Inputs, a sink and a gate, with what they tell and how often they have failed.
#![tactic(auto)]

mod edge;
mod gate;
mod inputs;
mod mem_inputs;
mod mem_sink;
mod memory;
mod shelf;
mod sink;
mod sure;

pub use edge::{FileInputs, OutSink};
pub use gate::{Gate, NoGate};
pub use inputs::{Inputs, MOST_BYTES, ReadFault, read_all};
pub use mem_inputs::MemInputs;
pub use mem_sink::MemSink;
pub use memory::MemFile;
pub use sink::{Failed, Sink, write_all};
pub use sure::{SureInputs, SureSink};
