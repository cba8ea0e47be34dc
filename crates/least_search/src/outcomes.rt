//! What a search for the least choice comes to.
use refutation::Proof;

/// What a judge's choices come to.
#[derive(Drop)]
pub enum Found {
    /// The legal choice of least rank.
    Choice { at: Vec<u16> },
    /// No choice is legal: the judge's canonical proof of it.
    Nothing { proof: Proof },
}
