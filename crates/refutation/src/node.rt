//! The plain data of a proof.
use res_base::Items;
use search_api::Reason;

/// A node of a proof, which stands for a box.
#[derive(Clone, Copy, Debug, PartialEq, Eq)]
pub enum Node {
    /// The box is split at a variable: the lower part ends at a position, and the upper part begins after it.
    Split { variable: u16, after: u16 },
    /// The reason says that no choice of the box is legal.
    Bad(Reason),
    /// No choice of the box has a rank as low as the bound.
    Rank,
    /// The one choice of the box is legal and has the bound as its rank.
    Witness,
}

/// A proof that no choice has a rank below the bound, or that none is legal where there is no bound.
///
/// The nodes stand in prefix order: a split, its lower part, and then its upper part.
#[derive(Debug, Drop)]
pub struct Proof {
    pub bound: Option<u64>,
    pub nodes: Items<Node>,
}

/// Why a checker does not accept a proof.
#[derive(Clone, Copy, Debug, PartialEq, Eq)]
pub enum CheckFault {
    /// The number, from 0, of the first node that breaks its rule; the number of nodes where the
    /// bound has no witness.
    Rejected { node: u32 },
}

/// Why a text is read as no proof.
#[derive(Clone, Copy, Debug, PartialEq, Eq)]
pub enum ProofFault {
    /// The first line, from 1, that is not of a form due there, or one after the last line.
    Line { line: u32 },
}
