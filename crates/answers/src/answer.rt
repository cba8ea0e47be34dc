//! A status and the text that goes with it.
ghost use Rattle.std.specs.Prelude.{◌≡◌, ◌++◌, decimal, IfOk};
ghost use Rattle.answers.specs.Said.{Says, number_of};

use res_base::{Items, OutOfMemory};
use std::alloc::Global;

/// How a call ended.
#[derive(Clone, Copy, Debug, PartialEq, Eq)]
pub enum Status {
    /// The command's text was written.
    Done,
    /// No choice meets the limits.
    NoChoice,
    /// The words are not of the grammar.
    Usage,
    /// An input could not be read.
    ReadFailed,
    /// An input has too many bytes.
    TooLong,
    /// A fault of the table.
    TableRefused,
    /// A fault of the project or of a need.
    ProjectRefused,
    /// Ranks would need more than 63 bits.
    TooWide,
    /// The output could not be written.
    WriteFailed,
    /// No memory.
    OutOfMemory,
    /// The proof has no reading or is not accepted.
    ProofRefused,
    /// The project cannot be written back with a choice.
    WriteBackRefused,
    /// A DMA request that the table does not have, or that was asked for before.
    RequestRefused,
    /// The C text has no reading.
    CTextRefused,
    /// The text of the flag answers is not of its form, or has too many.
    AnswersRefused,
    /// A traced run has too many steps.
    TraceTooLong,
}

impl Status {
    /// The exit status of the process.
    pub fn number(self) -> u8
        ensures { result ≡ number_of self }
    {
        match self {
            Status::Done => 0,
            Status::NoChoice => 1,
            Status::Usage => 2,
            Status::ReadFailed => 3,
            Status::TooLong => 4,
            Status::TableRefused => 5,
            Status::ProjectRefused => 6,
            Status::TooWide => 7,
            Status::WriteFailed => 8,
            Status::OutOfMemory => 9,
            Status::ProofRefused => 10,
            Status::WriteBackRefused => 12,
            Status::RequestRefused => 13,
            Status::CTextRefused => 14,
            Status::AnswersRefused => 15,
            Status::TraceTooLong => 16,
        }
    }
}

/// A status and the text that goes with it.
#[derive(Debug, Drop)]
pub struct Answer {
    pub status: Status,
    pub text: Items<u8>,
}

/// A line of this text.
pub fn says(alloc: Global, status: Status, text: &str) -> Result<Answer, OutOfMemory>
    ensures { IfOk result (λ a. Says a status text.now) }
{
    let line = format!(in alloc; "{text}\n")?;
    let bytes = Vec::from_slice(alloc, line.as_bytes())?;
    Ok(Answer {
        status,
        text: Items::of(bytes),
    })
}

/// A line of this text and then a name.
pub fn names(alloc: Global, status: Status, text: &str, name: &str) -> Result<Answer, OutOfMemory>
    ensures { IfOk result (λ a. Says a status (text.now ++ name.now)) }
{
    let line = format!(in alloc; "{text}{name}\n")?;
    let bytes = Vec::from_slice(alloc, line.as_bytes())?;
    Ok(Answer {
        status,
        text: Items::of(bytes),
    })
}

/// A line of this text and then a number.
pub fn counts(alloc: Global, status: Status, text: &str, number: u64) -> Result<Answer, OutOfMemory>
    ensures { IfOk result (λ a. Says a status (text.now ++ decimal number)) }
{
    let line = format!(in alloc; "{text}{number}\n")?;
    let bytes = Vec::from_slice(alloc, line.as_bytes())?;
    Ok(Answer {
        status,
        text: Items::of(bytes),
    })
}
