//! A stream for each wanted DMA request, or why they cannot all have one.
#![tactic(auto)]

mod checker;
mod due;
mod judge;
mod laws;
mod lines;
mod streams;
mod want;

pub use checker::check_dma;
pub use due::dma_answer;
pub use judge::{DmaJudge, DmaRoom};
pub use laws::{legal_choices_share_no_stream, verdicts_are_lawful};
pub use want::{DmaFault, DmaWant};
