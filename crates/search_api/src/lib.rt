//! What a search is asked and what it answers: the judge of boxes, and the account of an outcome.
#![tactic(auto)]

mod judge;
mod laws;
mod outcome;
mod place;
mod verdict;

pub use judge::Judge;
pub use laws::accounted_outcome_answers;
pub use outcome::{Cause, Closed, Outcome};
pub use place::{Place, push_halves};
pub use verdict::{Class, Reason, Verdict};
