//! Why words are refused.

/// The words have no reading.
#[derive(Debug, Drop)]
pub enum UsageFault {
    /// The first word that is not allowed, from 1; one more than their number where they end too early.
    Word { word: usize },
}
