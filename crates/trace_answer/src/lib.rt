//! What is answered where the accesses of a C text are run with flag answers: the trace, or why there is none.
#![tactic(auto)]

mod answer;
mod part;

pub use answer::trace_answer;
